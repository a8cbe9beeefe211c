use crate::Listed;

#[test]
fn a_list_gives_its_values_in_order(rt: HostRuntime) {
    let list = Listed::of(vec![in rt.alloc(); 3u64, 1, 2].expect(&rt, "memory"));
    assert_eq!(rt; list.items(), [3u64, 1, 2].as_slice());
}
