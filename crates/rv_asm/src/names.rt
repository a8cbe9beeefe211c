//! The names of instructions, and which one a name's bytes stand for.

ghost use Rattle.std.specs.Prelude.{◌≡◌};
ghost use Rattle.rv_asm.specs.Names.{upper_name, branch_name, load_name, store_name, imm_name, shift_name, reg_name, csr_name, amo_name, order_suffix};
ghost use Rattle.rv_asm.specs.Keys.{upper_named, branch_named, load_named, store_named, imm_named, shift_named, reg_named, csr_named, amo_named, order_named};
ghost use Rattle.rv_asm.specs.Text.{csr_before};

use rv_decode::{AmoOp, BranchOp, CsrOp, ImmOp, LoadOp, RegOp, ShiftOp, StoreOp, UpperOp};

pub fn upper_name(op: UpperOp) -> &'static str
    ensures { result.now ≡ upper_name op }
{
    match op {
        UpperOp::Lui => "lui",
        UpperOp::Auipc => "auipc",
    }
}

pub fn branch_name(op: BranchOp) -> &'static str
    ensures { result.now ≡ branch_name op }
{
    match op {
        BranchOp::Beq => "beq",
        BranchOp::Bne => "bne",
        BranchOp::Blt => "blt",
        BranchOp::Bge => "bge",
        BranchOp::Bltu => "bltu",
        BranchOp::Bgeu => "bgeu",
    }
}

pub fn load_name(op: LoadOp) -> &'static str
    ensures { result.now ≡ load_name op }
{
    match op {
        LoadOp::Lb => "lb",
        LoadOp::Lh => "lh",
        LoadOp::Lw => "lw",
        LoadOp::Lbu => "lbu",
        LoadOp::Lhu => "lhu",
    }
}

pub fn store_name(op: StoreOp) -> &'static str
    ensures { result.now ≡ store_name op }
{
    match op {
        StoreOp::Sb => "sb",
        StoreOp::Sh => "sh",
        StoreOp::Sw => "sw",
    }
}

pub fn imm_name(op: ImmOp) -> &'static str
    ensures { result.now ≡ imm_name op }
{
    match op {
        ImmOp::Addi => "addi",
        ImmOp::Slti => "slti",
        ImmOp::Sltiu => "sltiu",
        ImmOp::Xori => "xori",
        ImmOp::Ori => "ori",
        ImmOp::Andi => "andi",
    }
}

pub fn shift_name(op: ShiftOp) -> &'static str
    ensures { result.now ≡ shift_name op }
{
    match op {
        ShiftOp::Slli => "slli",
        ShiftOp::Srli => "srli",
        ShiftOp::Srai => "srai",
    }
}

pub fn reg_name(op: RegOp) -> &'static str
    ensures { result.now ≡ reg_name op }
{
    match op {
        RegOp::Add => "add",
        RegOp::Sub => "sub",
        RegOp::Sll => "sll",
        RegOp::Slt => "slt",
        RegOp::Sltu => "sltu",
        RegOp::Xor => "xor",
        RegOp::Srl => "srl",
        RegOp::Sra => "sra",
        RegOp::Or => "or",
        RegOp::And => "and",
        RegOp::Mul => "mul",
        RegOp::Mulh => "mulh",
        RegOp::Mulhsu => "mulhsu",
        RegOp::Mulhu => "mulhu",
        RegOp::Div => "div",
        RegOp::Divu => "divu",
        RegOp::Rem => "rem",
        RegOp::Remu => "remu",
    }
}

pub fn csr_name(op: CsrOp) -> &'static str
    ensures { result.now ≡ csr_name op }
{
    match op {
        CsrOp::Csrrw => "csrrw",
        CsrOp::Csrrs => "csrrs",
        CsrOp::Csrrc => "csrrc",
        CsrOp::Csrrwi => "csrrwi",
        CsrOp::Csrrsi => "csrrsi",
        CsrOp::Csrrci => "csrrci",
    }
}

pub fn amo_name(op: AmoOp) -> &'static str
    ensures { result.now ≡ amo_name op }
{
    match op {
        AmoOp::Swap => "amoswap.w",
        AmoOp::Add => "amoadd.w",
        AmoOp::Xor => "amoxor.w",
        AmoOp::And => "amoand.w",
        AmoOp::Or => "amoor.w",
        AmoOp::Min => "amomin.w",
        AmoOp::Max => "amomax.w",
        AmoOp::Minu => "amominu.w",
        AmoOp::Maxu => "amomaxu.w",
    }
}

pub fn order_suffix(order: u8) -> &'static str
    ensures { result.now ≡ order_suffix order }
{
    match order {
        0 => "",
        1 => ".rl",
        2 => ".aq",
        _ => ".aqrl",
    }
}

pub fn csr_before(op: CsrOp) -> &'static str
    ensures { result.now ≡ csr_before op }
{
    match op {
        CsrOp::Csrrw => ", x",
        CsrOp::Csrrs => ", x",
        CsrOp::Csrrc => ", x",
        CsrOp::Csrrwi => ", ",
        CsrOp::Csrrsi => ", ",
        CsrOp::Csrrci => ", ",
    }
}

pub fn upper_named(key: u64) -> Option<UpperOp>
    ensures { result ≡ upper_named key }
{
    match key {
        0x6c7569 => Some(UpperOp::Lui),
        0x6175697063 => Some(UpperOp::Auipc),
        _ => None,
    }
}

pub fn branch_named(key: u64) -> Option<BranchOp>
    ensures { result ≡ branch_named key }
{
    match key {
        0x626571 => Some(BranchOp::Beq),
        0x626e65 => Some(BranchOp::Bne),
        0x626c74 => Some(BranchOp::Blt),
        0x626765 => Some(BranchOp::Bge),
        0x626c7475 => Some(BranchOp::Bltu),
        0x62676575 => Some(BranchOp::Bgeu),
        _ => None,
    }
}

pub fn load_named(key: u64) -> Option<LoadOp>
    ensures { result ≡ load_named key }
{
    match key {
        0x6c62 => Some(LoadOp::Lb),
        0x6c68 => Some(LoadOp::Lh),
        0x6c77 => Some(LoadOp::Lw),
        0x6c6275 => Some(LoadOp::Lbu),
        0x6c6875 => Some(LoadOp::Lhu),
        _ => None,
    }
}

pub fn store_named(key: u64) -> Option<StoreOp>
    ensures { result ≡ store_named key }
{
    match key {
        0x7362 => Some(StoreOp::Sb),
        0x7368 => Some(StoreOp::Sh),
        0x7377 => Some(StoreOp::Sw),
        _ => None,
    }
}

pub fn imm_named(key: u64) -> Option<ImmOp>
    ensures { result ≡ imm_named key }
{
    match key {
        0x61646469 => Some(ImmOp::Addi),
        0x736c7469 => Some(ImmOp::Slti),
        0x736c746975 => Some(ImmOp::Sltiu),
        0x786f7269 => Some(ImmOp::Xori),
        0x6f7269 => Some(ImmOp::Ori),
        0x616e6469 => Some(ImmOp::Andi),
        _ => None,
    }
}

pub fn shift_named(key: u64) -> Option<ShiftOp>
    ensures { result ≡ shift_named key }
{
    match key {
        0x736c6c69 => Some(ShiftOp::Slli),
        0x73726c69 => Some(ShiftOp::Srli),
        0x73726169 => Some(ShiftOp::Srai),
        _ => None,
    }
}

pub fn reg_named(key: u64) -> Option<RegOp>
    ensures { result ≡ reg_named key }
{
    match key {
        0x616464 => Some(RegOp::Add),
        0x737562 => Some(RegOp::Sub),
        0x736c6c => Some(RegOp::Sll),
        0x736c74 => Some(RegOp::Slt),
        0x736c7475 => Some(RegOp::Sltu),
        0x786f72 => Some(RegOp::Xor),
        0x73726c => Some(RegOp::Srl),
        0x737261 => Some(RegOp::Sra),
        0x6f72 => Some(RegOp::Or),
        0x616e64 => Some(RegOp::And),
        0x6d756c => Some(RegOp::Mul),
        0x6d756c68 => Some(RegOp::Mulh),
        0x6d756c687375 => Some(RegOp::Mulhsu),
        0x6d756c6875 => Some(RegOp::Mulhu),
        0x646976 => Some(RegOp::Div),
        0x64697675 => Some(RegOp::Divu),
        0x72656d => Some(RegOp::Rem),
        0x72656d75 => Some(RegOp::Remu),
        _ => None,
    }
}

pub fn csr_named(key: u64) -> Option<CsrOp>
    ensures { result ≡ csr_named key }
{
    match key {
        0x6373727277 => Some(CsrOp::Csrrw),
        0x6373727273 => Some(CsrOp::Csrrs),
        0x6373727263 => Some(CsrOp::Csrrc),
        0x637372727769 => Some(CsrOp::Csrrwi),
        0x637372727369 => Some(CsrOp::Csrrsi),
        0x637372726369 => Some(CsrOp::Csrrci),
        _ => None,
    }
}

pub fn amo_named(key: u64) -> Option<AmoOp>
    ensures { result ≡ amo_named key }
{
    match key {
        0x616d6f73776170 => Some(AmoOp::Swap),
        0x616d6f616464 => Some(AmoOp::Add),
        0x616d6f786f72 => Some(AmoOp::Xor),
        0x616d6f616e64 => Some(AmoOp::And),
        0x616d6f6f72 => Some(AmoOp::Or),
        0x616d6f6d696e => Some(AmoOp::Min),
        0x616d6f6d6178 => Some(AmoOp::Max),
        0x616d6f6d696e75 => Some(AmoOp::Minu),
        0x616d6f6d617875 => Some(AmoOp::Maxu),
        _ => None,
    }
}

pub fn order_named(suffix: u64) -> Option<u8>
    ensures { result ≡ order_named suffix }
{
    match suffix {
        0x77 => Some(0),
        0x772e726c => Some(1),
        0x772e6171 => Some(2),
        0x772e6171726c => Some(3),
        _ => None,
    }
}
