//! The table, its passes, and the steps by which a board goes from hand to hand.

ghost use Rattle.std.specs.Prelude.{◌≡◌, ◌≢◌, ◌<◌, ◌≤◌, ℕ, List, [], ◌∷◌, true, false, length, Some, None, IfSome, IfNone, IfOk, IfErr, All, map, take, drop, vec_len, vec_capacity, slice_get};
ghost use Rattle.std.specs.List.{enumerate_from};
ghost use Rattle.turn_table.specs.Turns.{IsRuled, takes_board, gives_board, rest, idle, joined, dealt};

use crate::view::View;
use atomic_table::{Join, Play, Refused, Seat, Split, Table, TableRule};
use std::alloc::{AllocFailed, Global};
use std::marker::PhantomData;
use std::snapshot::Snapshot;
use std::sync::Wait;

/// A board that has a part for each hart.
pub trait Parted {
    /// What the board has for a hart. It is plain data, which contracts alone have.
    type Part;

    ghost parts: { Self → List Self.Part };

    fn harts(&self) -> u8
        ensures { result ≡ length (parts self.now) };
}

/// What a table is told once: the board that it is opened with.
#[derive(Drop)]
struct Opening<B> {
    harts: u8,
    board: Snapshot<B>,
}

struct Turns<B> {
    board: PhantomData<B>,
}

impl<B: Parted> TableRule<Option<B>, View<B, B::Part>, Opening<B>> for Turns<B> {
    ghost holds = { λ k s. IsRuled B.parts k.harts s };

    ghost first = { λ k. idle k.harts (enumerate_from 0 (B.parts k.board.value)) [] };
}

/// A pass takes the board where it finds it.
struct Take<B> {
    board: PhantomData<B>,
}

impl<B: Parted> Play<Option<B>, View<B, B::Part>> for Take<B> {
    ghost then = { takes_board B.parts };
}

/// A pass gives the board back.
struct Give<B> {
    board: PhantomData<B>,
}

impl<B: Parted> Play<Option<B>, View<B, B::Part>> for Give<B> {
    ghost then = { gives_board B.parts };
}

/// The first hart on record goes to a pass of its own.
struct FirstOff;

impl<B, P> Split<View<B, P>> for FirstOff {
    ghost left = { λ v. idle v.harts (rest v.records) v.found };

    ghost right = { λ v. idle v.harts (take 1 v.records) [] };
}

/// One pass keeps what two had on record.
struct Together;

impl<B, P> Join<View<B, P>> for Together {
    ghost both = { joined };

    ghost spent = { idle 0 [] [] };
}

/// A hart's right to take the board, and in contracts the part that the hart has on record.
#[derive(Drop)]
pub struct Pass<B: Parted> {
    seat: Seat<Option<B>, View<B, B::Part>>,
}

type BoardTable<B> = Table<Option<B>, View<B, <B as Parted>::Part>, Opening<B>, Turns<B>, Global>;

/// A board and its place, which is empty while a pass holds the board.
#[derive(Drop)]
pub struct TurnTable<B: Parted> {
    table: BoardTable<B>,
    ghost one: { (table.shared.table_id.words ≡ 1) × (table.shared.table_id.slots ≡ 1) },
    ghost some: { 0 < table.shared.key.harts },
}

/// Memory ran out. The board is the one that was handed in.
#[derive(Drop)]
pub struct NoRoom<B> {
    pub board: B,
}

/// A pass for each of the first harts on record with the seat.
fn deal<B: Parted>(
    table: &BoardTable<B>,
    seat: &mut Seat<Option<B>, View<B, B::Part>>,
    passes: &mut Vec<Pass<B>>,
    count: u8,
)
    requires table { seat.old.table_id ≡ table.now.shared.table_id }
    requires words { 0 < table.now.shared.table_id.words }
    requires idle { seat.old.me ≡ (idle seat.old.me.0.harts seat.old.me.0.records [], []) }
    requires fresh { passes.old.items ≡ [] }
    requires room { count < vec_capacity passes.old }
    requires harts { count ≤ length seat.old.me.0.records }
    ensures seat { seat.new.table_id ≡ seat.old.table_id }
    ensures view { seat.new.me ≡ (idle seat.old.me.0.harts (drop count seat.old.me.0.records) [], []) }
    ensures table { All (λ p. p.seat.table_id ≡ table.now.shared.table_id) passes.new.items }
    ensures records { map (λ p. p.seat.me) passes.new.items
        ≡ dealt seat.old.me.0.harts (take count seat.old.me.0.records) }
    ensures room { (vec_capacity passes.old ≤ vec_capacity passes.new) × (vec_len passes.new ≡ count) }
{
    for _ in 0..count {
        let first = table.shared.split_seat::<FirstOff>(seat);
        let Ok(()) = passes.push(Pass { seat: first }) else {
            unreachable!()
        };
    }
}

impl<B: Parted> TurnTable<B> {
    ghost use Rattle.std.specs.Prelude.{◌≡◌, ◌<◌, ℕ, ◌++◌, [], ◌∷◌, length, map, Some, None, IfSome, IfNone, IfOk, IfErr, All, Contains, slice_get, vec_len};
    ghost use Rattle.std.specs.List.{enumerate_from};
    ghost use Rattle.turn_table.specs.Passes.{IsPassOf, IsIdle, IsFresh, IsHolding, HoldsBoard, IsSame, ChangesOnly, AreOf, harts_of, hart_of, part_of, noted_of, found_of, taken_of, turns_of};

    /// A table with the board in its place, and the passes of harts 0 up to n.
    pub fn open(alloc: Global, n: u8, board: B) -> Result<(TurnTable<B>, Vec<Pass<B>>), NoRoom<B>>
        requires some { 0 < n }
        requires count { n ≡ length (B.parts board) }
        ensures err { IfErr result (λ e. e.board ≡ board) }
        ensures harts { IfOk result (λ t. harts_of t.0 ≡ n) }
        ensures count { IfOk result (λ t. vec_len t.1 ≡ n) }
        ensures table { IfOk result (λ t. All (λ p. IsPassOf t.0 p × IsIdle p) t.1.items) }
        ensures fresh { IfOk result (λ t. All IsFresh t.1.items) }
        ensures each { IfOk result (λ t. AreOf (B.parts board) t.1.items) }
        ensures every { IfOk result (λ t. (h : ℕ) → h < n → Contains (map hart_of t.1.items) h) }
    {
        let opening = Opening {
            harts: n,
            board: Snapshot::of(&board),
        };
        let Ok(mut passes) = Vec::with_capacity(alloc, n as usize) else {
            return Err(NoRoom { board });
        };
        let mut slots = Vec::new(alloc);
        if let Err(failed) = slots.push(Some(board)) {
            let AllocFailed { value } = failed;
            let Some(board) = value else { unreachable!() };
            slots.destroy_empty();
            return Err(NoRoom { board });
        }
        match Table::new(alloc, &[1], slots, &opening) {
            Ok((table, mut seat)) => {
                deal(&table, &mut seat, &mut passes, n - 1);
                let Ok(()) = passes.push(Pass { seat }) else {
                    unreachable!()
                };
                Ok((TurnTable { table }, passes))
            }
            Err(Refused { mut slots }) => {
                let whole = slots.pop();
                slots.destroy_empty();
                let Some(Some(board)) = whole else {
                    unreachable!()
                };
                Err(NoRoom { board })
            }
        }
    }

    /// The board, or None where the exchange of this call found the place empty.
    pub fn try_take(&self, pass: &mut Pass<B>) -> Option<B>
        requires table { IsPassOf self.now pass.old }
        requires idle { IsIdle pass.old }
        ensures table { IsPassOf self.now pass.new }
        ensures same { IsSame pass.old pass.new }
        ensures count { IfSome result (λ b. length (B.parts b) ≡ harts_of self.now) }
        ensures part { IfSome result (λ b. slice_get (B.parts b) (hart_of pass.old) ≡ part_of pass.old) }
        ensures holds { IfSome result (λ b. HoldsBoard B.parts b pass.new) }
        ensures found { IfSome result (λ _. found_of pass.new ≡ found_of pass.old ++ 1 ∷ []) }
        ensures idle { IfNone result (IsIdle pass.new) }
        ensures empty { IfNone result (found_of pass.new ≡ found_of pass.old ++ 0 ∷ []) }
    {
        let found = self.table.shared.swap::<Take<B>>(&mut pass.seat, 0, 0);
        if found == 1 {
            self.table.shared.exchange(&mut pass.seat, 0, None)
        } else {
            None
        }
    }

    /// Waits for the board.
    pub fn take<R: Wait>(&self, wait: &R, pass: &mut Pass<B>) -> B
        requires table { IsPassOf self.now pass.old }
        requires idle { IsIdle pass.old }
        ensures table { IsPassOf self.now pass.new }
        ensures same { IsSame pass.old pass.new }
        ensures count { length (B.parts result) ≡ harts_of self.now }
        ensures part { slice_get (B.parts result) (hart_of pass.old) ≡ part_of pass.old }
        ensures holds { HoldsBoard B.parts result pass.new }
    {
        for _ in wait.forever() {
            if let Some(board) = self.try_take(pass) {
                return board;
            }
            self.table.shared.park(wait, 0, 0);
        }
        unreachable!()
    }

    /// Gives the board back. What the pass then has on record is the board's part of its hart.
    pub fn give(&self, pass: &mut Pass<B>, board: B)
        requires table { IsPassOf self.now pass.old }
        requires holds { IsHolding pass.old }
        requires parts { ChangesOnly (hart_of pass.old) (noted_of pass.old) (B.parts board) }
        ensures table { IsPassOf self.now pass.new }
        ensures idle { IsIdle pass.new }
        ensures hart { hart_of pass.new ≡ hart_of pass.old }
        ensures part { part_of pass.new ≡ slice_get (B.parts board) (hart_of pass.old) }
        ensures found { found_of pass.new ≡ found_of pass.old }
        ensures turn { turns_of pass.new ≡ turns_of pass.old ++ map (λ b. (b, board)) (taken_of pass.old) }
    {
        let nothing = self.table.shared.exchange(&mut pass.seat, 0, Some(board));
        let None = nothing else { unreachable!() };
        self.table.shared.swap::<Give<B>>(&mut pass.seat, 0, 1);
        self.table.shared.wake_one(0);
    }

    /// The board, of which each hart's part is the one that its pass has on record.
    pub fn close(self, passes: Vec<Pass<B>>) -> B
        requires table { All (λ p. IsPassOf self p × IsIdle p) passes.items }
        requires every { (h : ℕ) → h < harts_of self → Contains (map hart_of passes.items) h }
        ensures count { length (B.parts result) ≡ harts_of self }
        ensures parts { All (λ p. slice_get (B.parts result) (hart_of p) ≡ part_of p) passes.items }
    {
        let TurnTable { table } = self;
        let mut passes = passes;
        let Some(Pass { seat: mut all }) = passes.pop() else {
            unreachable!()
        };
        while let Some(Pass { seat }) = passes.pop() {
            table.shared.join_seat::<Together>(&mut all, seat);
        }
        let mut closed = table.close_with(all);
        let place = closed.take(0);
        closed.free();
        let Some(board) = place else { unreachable!() };
        board
    }
}
