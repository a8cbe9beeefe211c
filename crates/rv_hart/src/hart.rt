//! A hart, and its moves.

ghost use Rattle.std.specs.Prelude.{ℕ, ◌≡◌, ◌+◌, ◌*◌, ◌<◌, ◌%◌, ◌^◌, IfSome, true};
ghost use Rattle.rv_hart.specs.Values.{load_size, store_size};
ghost use Rattle.rv_hart.specs.Effects.{reg, address, upper_effect, jump, branch_effect, is_device, load_effect, store_effect, atomic_effect, is_reserved, conditional_effect, csr_operand, csr_effect, instr_effect, effect_of, fetch_of, entry_effect};
ghost use Rattle.rv_hart.specs.Moves.{hart_at_start, with_reg, retired, gone_on, with_reserved, with_csrs, after_csr_write, trapped, after, written, need_of, trap_of};
ghost use Rattle.rv_hart.specs.Bursts.{is_quiet, fetch_place, with_counted};
ghost use Rattle.rv_hart.specs.Places.{WordInMemory, FetchesInMemory, NeedIsThere, WritesInMemory, SameBoard, IsSound, IsSoundAt};
ghost use Rattle.rv_hart.specs.State;
ghost use Rattle.rv_decode.specs.Fits.{Fits};
ghost use Rattle.rv_csr.specs.Registers.{csr_read};
ghost use Rattle.rv_csr.specs.Traps.{with_lines};

use crate::effect::{Effect, Fetch, Need, Wrote};
use crate::values::{
    amo_value, branch_taken, csr_value, does_write, imm_value, load_size, loaded_value, reg_value,
    shift_value, store_size, takes_register,
};
use rv_csr::{Csrs, causes};
use rv_decode::{BranchOp, CsrOp, Instr, LoadOp, StoreOp, UpperOp};
use rv_words::Access;
use std::marker::Model;

/// One hart of a board.
#[derive(Clone, Copy, Debug, PartialEq, Eq)]
pub struct Hart {
    pc: u32,
    regs: [u32; 32],
    csrs: Csrs,
    reserved: Option<u32>,
    harts: u8,
    pages: u16,
}

impl Model for Hart {
    ghost use Rattle.rv_hart.specs.State as state;
    ghost use Rattle.std.specs.Prelude.{◌≡◌, ◌%◌, ◌∷◌, drop};

    ghost Value = { state.Hart };

    ghost view = { λ h. record {
      pc = h.pc;
      regs = drop 1 h.regs;
      csrs = h.csrs;
      reserved = h.reserved;
      harts = h.harts;
      pages = h.pages;
    } };

    ghost invariant = { λ h. (h.pc % 4 ≡ 0) × (h.regs ≡ 0 ∷ drop 1 h.regs) };

    ghost inverse = { λ h. record {
      pc = h.pc;
      regs = 0 ∷ h.regs;
      csrs = h.csrs;
      reserved = h.reserved;
      harts = h.harts;
      pages = h.pages;
    } };

    ghost use Rattle.std.proofs.Common.{ap, sym};

    ghost inverse_ok = { λ a h. ap (λ rs. record a { regs = rs }) (sym h.1) };
}

impl Hart {
    /// A hart at its start, on a board with so many harts and pages.
    pub fn start(id: u8, harts: u8, pages: u16, entry: u32) -> Hart
        requires hart { id < harts }
        requires entry { entry % 4 ≡ 0 }
        ensures { result ≡ hart_at_start id harts pages entry }
    {
        Hart {
            pc: entry,
            regs: [0; 32],
            csrs: Csrs::start(id),
            reserved: None,
            harts,
            pages,
        }
    }

    pub fn pc(&self) -> u32
        ensures value { result ≡ self.now.pc }
        ensures aligned { result % 4 ≡ 0 }
    {
        self.pc
    }

    pub fn reg(&self, n: u8) -> u32
        requires { n < 32 }
        ensures { result ≡ reg self.now n }
    {
        self.regs[n as usize]
    }

    pub fn csr(&self, number: u16) -> Option<u32>
        ensures { result ≡ csr_read number self.now.csrs }
    {
        self.csrs.read(number)
    }

    pub fn reserved(&self) -> Option<u32>
        ensures { result ≡ self.now.reserved }
    {
        self.reserved
    }

    /// Ends the reservation.
    pub fn lose(&mut self)
        ensures { self.new ≡ with_reserved None self.old }
    {
        self.reserved = None;
    }

    /// Sets the lines: bit 0 software, bit 1 timer.
    pub fn set_lines(&mut self, lines: u8)
        requires { lines < 4 }
        ensures { self.new ≡ record self.old { csrs = with_lines lines self.old.csrs } }
    {
        self.csrs.set_lines(lines);
    }

    /// How the next move begins.
    pub fn fetch_need(&self) -> Fetch
        ensures fetch { result ≡ fetch_of self.now }
        ensures inside { FetchesInMemory self.now.pages result }
    {
        if self.csrs.pending().is_some() {
            Fetch::Interrupt
        } else if rv_words::in_memory(self.pc, self.pages) {
            Fetch::At(self.pc)
        } else {
            Fetch::Fault
        }
    }

    /// Where the next move fetches from while no interrupt is pending.
    pub fn fetch_place(&self) -> Option<u32>
        ensures place { result ≡ fetch_place self.now }
        ensures inside { IfSome result (WordInMemory self.now.pages) }
    {
        if rv_words::in_memory(self.pc, self.pages) {
            Some(self.pc)
        } else {
            None
        }
    }

    /// Counts so many moves that were made uncounted.
    pub fn count_moves(&mut self, moves: u64)
        requires { 0 < moves }
        ensures { self.new ≡ with_counted moves self.old }
    {
        self.csrs.count_moves(moves);
    }

    /// The move where nothing is fetched: the pending interrupt, else the fetch fault.
    pub fn enter(&mut self)
        ensures after { self.new ≡ after self.old (entry_effect self.old) 0 }
        ensures board { SameBoard self.old self.new }
    {
        match self.csrs.pending() {
            Some(cause) => self.trap(cause, 0),
            None => self.trap(causes::FETCH_FAULT, self.pc),
        }
    }

    /// What the move of a fetched word does. `data_need`, `traps` and `finish` read it; a caller that
    /// asks more than one of them of a move takes the effect once and hands it to `make`.
    #[inline(always)]
    pub fn effect(&self, word: u32) -> Effect
        ensures effect { result ≡ effect_of self.now word }
        ensures sound { IsSound self.now result }
    {
        match rv_decode::decode(word) {
            Some(i) => self.instr_effect(i, word),
            None => traps(causes::ILLEGAL_INSTRUCTION, word),
        }
    }

    /// The data that the move of a fetched word needs. Nothing also stands for a word that traps.
    #[tactic(auto, using(crate::proofs::Sound::need_is_there))]
    pub fn data_need(&self, word: u32) -> Need
        ensures need { result ≡ need_of (effect_of self.now word) }
        ensures inside { NeedIsThere self.now result }
    {
        self.effect(word).need()
    }

    /// The cause with which the move of a fetched word traps; None exactly where it retires.
    pub fn traps(&self, word: u32) -> Option<u32>
        ensures { result ≡ trap_of (effect_of self.now word) }
    {
        self.effect(word).trap()
    }

    /// The move of a fetched word. `loaded` is the aligned memory word that holds the address, or the
    /// device's answer, and is ignored where nothing is loaded.
    pub fn finish(&mut self, word: u32, loaded: u32) -> Wrote
        ensures after { self.new ≡ after self.old (effect_of self.old word) loaded }
        ensures written { result ≡ written (effect_of self.old word) loaded }
        ensures inside { WritesInMemory self.old.pages result }
        ensures board { SameBoard self.old self.new }
    {
        let effect = self.effect(word);
        self.make(effect, loaded)
    }

    /// Makes the move of an effect that this hart gave, with what it loaded as for `finish`.
    #[inline(always)]
    #[tactic(auto, using(crate::proofs::Bursts::after_counted))]
    pub fn make(&mut self, effect: Effect, loaded: u32) -> Wrote
        requires { IsSound self.old effect }
        ensures after { self.new ≡ after self.old effect loaded }
        ensures written { result ≡ written effect loaded }
        ensures inside { WritesInMemory self.old.pages result }
        ensures board { SameBoard self.old self.new }
    {
        match effect {
            Effect::WritesCsr {
                rd,
                old,
                number,
                value,
            } => self.write_csr(rd, old, number, value),
            Effect::Returns => self.leave(),
            Effect::Traps { cause, value } => self.trap(cause, value),
            _ => {
                let wrote = self.make_uncounted(effect, loaded);
                self.csrs.count_move(true, None);
                return wrote;
            }
        }
        Wrote::Nothing
    }

    /// Makes the move of an effect that changes no control register but the counters, and leaves these.
    #[inline(always)]
    pub fn make_uncounted(&mut self, effect: Effect, loaded: u32) -> Wrote
        requires sound { IsSound self.old effect }
        requires quiet { is_quiet effect ≡ true }
        ensures after { self.new ≡ with_csrs self.old.csrs (after self.old effect loaded) }
        ensures written { result ≡ written effect loaded }
        ensures inside { WritesInMemory self.old.pages result }
        ensures board { SameBoard self.old self.new }
    {
        match effect {
            Effect::Sets { rd, value } => self.go_on(rd, value),
            Effect::Jumps { rd, target } => {
                self.set_reg(rd, self.pc.wrapping_add(4));
                self.pc = target;
            }
            Effect::Loads { op, rd, at } => self.go_on(rd, loaded_value(op, at, loaded)),
            Effect::Stores { at, size, value } => {
                self.go_on(0, 0);
                return Wrote::Bytes { at, size, value };
            }
            Effect::Reserves { rd, at } => self.go_on_reserved(rd, loaded, Some(at)),
            Effect::Commits { rd, at, value } => {
                self.go_on_reserved(rd, 0, None);
                return Wrote::Bytes { at, size: 4, value };
            }
            Effect::Fails { rd, .. } => self.go_on_reserved(rd, 1, None),
            Effect::Updates {
                op,
                rd,
                at,
                operand,
            } => {
                self.go_on(rd, loaded);
                let value = amo_value(op, loaded, operand);
                return Wrote::Bytes { at, size: 4, value };
            }
            Effect::DeviceLoads { rd, .. } => self.go_on(rd, loaded),
            Effect::DeviceStores { .. } => self.go_on(0, 0),
            Effect::WritesCsr { .. } | Effect::Returns | Effect::Traps { .. } => unreachable!(),
        }
        Wrote::Nothing
    }

    #[tactic(auto, using(std::proofs::lemmas::List::set_past))]
    fn set_reg(&mut self, n: u8, value: u32)
        requires { n < 32 }
        ensures { self.new ≡ record self.old { regs = with_reg n value self.old.regs } }
    {
        if n != 0 {
            self.regs[n as usize] = value;
        }
    }

    fn go_on(&mut self, rd: u8, value: u32)
        requires { rd < 32 }
        ensures { self.new ≡ with_csrs self.old.csrs (gone_on self.old rd value) }
    {
        self.set_reg(rd, value);
        self.pc = self.pc.wrapping_add(4);
    }

    fn go_on_reserved(&mut self, rd: u8, value: u32, reserved: Option<u32>)
        requires { rd < 32 }
        ensures { self.new ≡ with_csrs self.old.csrs (with_reserved reserved (gone_on self.old rd value)) }
    {
        self.go_on(rd, value);
        self.reserved = reserved;
    }

    fn trap(&mut self, cause: u32, value: u32)
        ensures { self.new ≡ trapped self.old cause value }
    {
        self.pc = self.csrs.enter_trap(cause, self.pc, value);
        self.csrs.count_move(false, None);
    }

    fn write_csr(&mut self, rd: u8, old: u32, number: u16, value: u32)
        requires { rd < 32 }
        ensures { self.new ≡ after self.old (Effect.WritesCsr rd old number value) 0 }
    {
        let _ = self.csrs.write(number, value);
        self.csrs.count_move(true, Some(number));
        self.set_reg(rd, old);
        self.pc = self.pc.wrapping_add(4);
    }

    fn leave(&mut self)
        ensures { self.new ≡ after self.old Effect.Returns 0 }
    {
        self.pc = self.csrs.leave_trap();
        self.csrs.count_move(true, None);
    }

    fn upper_effect(&self, op: UpperOp, rd: u8, imm: u32) -> Effect
        requires { rd < 32 }
        ensures effect { result ≡ upper_effect self.now op rd imm }
        ensures sound { IsSound self.now result }
    {
        match op {
            UpperOp::Lui => sets(rd, imm),
            UpperOp::Auipc => sets(rd, self.pc.wrapping_add(imm)),
        }
    }

    fn branch_effect(&self, op: BranchOp, rs1: u8, rs2: u8, offset: i32) -> Effect
        requires first { rs1 < 32 }
        requires second { rs2 < 32 }
        ensures effect { result ≡ branch_effect self.now op rs1 rs2 offset }
        ensures sound { IsSound self.now result }
    {
        if branch_taken(op, self.reg(rs1), self.reg(rs2)) {
            jump(0, self.pc.wrapping_add_signed(offset))
        } else {
            NOTHING
        }
    }

    fn address(&self, rs1: u8, offset: i32) -> u32
        requires { rs1 < 32 }
        ensures { result ≡ address self.now rs1 offset }
    {
        self.reg(rs1).wrapping_add_signed(offset)
    }

    fn is_device(&self, at: u32) -> bool
        ensures { result ≡ is_device self.now at }
    {
        rv_words::device_word(at, self.harts).is_some()
    }

    fn load_effect(&self, op: LoadOp, rd: u8, at: u32) -> Effect
        requires { rd < 32 }
        ensures effect { result ≡ load_effect self.now op rd at }
        ensures sound { IsSound self.now result }
    {
        let size = load_size(op);
        if at % size != 0 {
            traps(causes::MISALIGNED_LOAD, at)
        } else if rv_words::in_memory(at, self.pages) {
            Effect::Loads { op, rd, at }
        } else if size == 4 && self.is_device(at) {
            Effect::DeviceLoads { rd, at }
        } else {
            traps(causes::LOAD_FAULT, at)
        }
    }

    #[inline(always)]
    fn store_effect(&self, op: StoreOp, at: u32, value: u32) -> Effect
        ensures effect { result ≡ store_effect self.now op at value }
        ensures sound { IsSound self.now result }
    {
        let size = store_size(op);
        if at % u32::from(size) != 0 {
            traps(causes::MISALIGNED_STORE, at)
        } else if rv_words::in_memory(at, self.pages) {
            Effect::Stores { at, size, value }
        } else if size == 4 && self.is_device(at) {
            Effect::DeviceStores { at, value }
        } else {
            traps(causes::STORE_FAULT, at)
        }
    }

    fn atomic_effect(&self, misaligned: u32, at: u32, effect: Effect) -> Effect
        requires cause { misaligned < 7 }
        requires sound { IsSoundAt self.now at effect }
        ensures effect { result ≡ atomic_effect self.now misaligned at effect }
        ensures sound { IsSound self.now result }
    {
        if at % 4 != 0 {
            traps(misaligned, at)
        } else if rv_words::in_memory(at, self.pages) {
            effect
        } else {
            traps(misaligned + 1, at)
        }
    }

    fn conditional_effect(&self, rd: u8, at: u32, value: u32) -> Effect
        requires { rd < 32 }
        ensures effect { result ≡ conditional_effect self.now rd at value }
        ensures sound { IsSoundAt self.now at result }
    {
        if self.reserved == Some(at) {
            Effect::Commits { rd, at, value }
        } else {
            Effect::Fails { rd, at }
        }
    }

    fn csr_operand(&self, op: CsrOp, rs1: u8) -> u32
        requires { rs1 < 32 }
        ensures { result ≡ csr_operand self.now op rs1 }
    {
        if takes_register(op) {
            self.reg(rs1)
        } else {
            u32::from(rs1)
        }
    }

    fn csr_effect(&self, op: CsrOp, rd: u8, rs1: u8, number: u16, word: u32) -> Effect
        requires register { rd < 32 }
        requires operand { rs1 < 32 }
        ensures effect { result ≡ csr_effect self.now op rd rs1 number word (csr_read number self.now.csrs) }
        ensures sound { IsSound self.now result }
    {
        match self.csrs.read(number) {
            None => traps(causes::ILLEGAL_INSTRUCTION, word),
            Some(old) => if !does_write(op, rs1) {
                sets(rd, old)
            } else if rv_csr::is_read_only(number) {
                traps(causes::ILLEGAL_INSTRUCTION, word)
            } else {
                let operand = self.csr_operand(op, rs1);
                Effect::WritesCsr {
                    rd,
                    old,
                    number,
                    value: csr_value(op, old, operand),
                }
            },
        }
    }

    /// What the move of an instruction does, which the word stands for.
    #[inline(always)]
    #[tactic(auto, unfolding(crate::specs::Effects::instr_effect))]
    #[rattlefmt::skip]
    pub fn instr_effect(&self, i: Instr, word: u32) -> Effect
        requires { Fits i }
        ensures effect { result ≡ instr_effect self.now i word }
        ensures sound { IsSound self.now result }
    {
        match i {
            Instr::Upper { op, rd, imm } => self.upper_effect(op, rd, imm),
            Instr::Jal { rd, offset } => jump(rd, self.pc.wrapping_add_signed(offset)),
            Instr::Jalr { rd, rs1, offset } => jump(rd, self.address(rs1, offset) / 2 * 2),
            Instr::Branch { op, rs1, rs2, offset } => self.branch_effect(op, rs1, rs2, offset),
            Instr::Load { op, rd, rs1, offset } => self.load_effect(op, rd, self.address(rs1, offset)),
            Instr::Store { op, rs1, rs2, offset } => self.store_effect(op, self.address(rs1, offset), self.reg(rs2)),
            Instr::Imm { op, rd, rs1, imm } => sets(rd, imm_value(op, self.reg(rs1), imm.cast_unsigned())),
            Instr::Shift { op, rd, rs1, amount } => sets(rd, shift_value(op, self.reg(rs1), u32::from(amount))),
            Instr::Reg { op, rd, rs1, rs2 } => sets(rd, reg_value(op, self.reg(rs1), self.reg(rs2))),
            Instr::Fence { .. } | Instr::FenceI { .. } | Instr::Wfi => NOTHING,
            Instr::Ecall => traps(causes::ENVIRONMENT_CALL, 0),
            Instr::Ebreak => traps(causes::BREAKPOINT, self.pc),
            Instr::Mret => Effect::Returns,
            Instr::Csr { op, rd, rs1, number } => self.csr_effect(op, rd, rs1, number, word),
            Instr::LoadReserved { rd, rs1, .. } => {
                let at = self.reg(rs1);
                self.atomic_effect(causes::MISALIGNED_LOAD, at, Effect::Reserves { rd, at })
            }
            Instr::StoreConditional { rd, rs1, rs2, .. } => {
                let at = self.reg(rs1);
                self.atomic_effect(causes::MISALIGNED_STORE, at, self.conditional_effect(rd, at, self.reg(rs2)))
            }
            Instr::Amo { op, rd, rs1, rs2, .. } => {
                let at = self.reg(rs1);
                self.atomic_effect(causes::MISALIGNED_STORE, at, Effect::Updates { op, rd, at, operand: self.reg(rs2) })
            }
        }
    }
}

/// The effect of an instruction that only goes on.
const NOTHING: Effect = Effect::Sets { rd: 0, value: 0 };

fn sets(rd: u8, value: u32) -> Effect
    ensures { result ≡ Effect.Sets rd value }
{
    Effect::Sets { rd, value }
}

fn traps(cause: u32, value: u32) -> Effect
    ensures { result ≡ Effect.Traps cause value }
{
    Effect::Traps { cause, value }
}

fn jump(rd: u8, target: u32) -> Effect
    requires { rd < 32 }
    ensures effect { result ≡ jump rd target }
    ensures sound { (h : State.Hart) → IsSound h result }
{
    if target % 4 == 0 {
        Effect::Jumps { rd, target }
    } else {
        traps(causes::MISALIGNED_TARGET, target)
    }
}
