//! The devices, their words, and the lines that they raise.

ghost use Rattle.std.specs.Prelude.{◌≡◌, ◌+◌, ◌<◌, ◌≤◌, ◌++◌, ◌∷◌, [], max, Bool, false, length, IsTrue, IsSome, IfSome, IfOk, OnErr, OnOk, Some, None, if◌then◌else◌};
ghost use Rattle.rv_words.specs.Addresses.{device_word, IsOfHart};
ghost use Rattle.device_board.specs.State.{devices_at_start, lines_at, lines, with_time};
ghost use Rattle.device_board.specs.Accesses.{loaded, stored, word_touched, touched, timed, MadeAgain, sends, HasRoom, RoomIsKept};
ghost use Rattle.device_board.specs.Recording.{uses_console, AccessHas, AccessGives, AccessUsesConsole};
ghost use Rattle.outside.specs.Causes.{HasCause};
ghost use Rattle.outside.specs.Seen.{ToldBefore, AnswersNothing, TakesNothing};

use crate::recording::recorded_input;
use outside::Console;
use rv_words::{
    Access, DeviceWord, Input, MAX_HARTS, device_word, has_bit, high_half, low_half,
    with_high_half, with_low_half,
};
use shared_types::NoMemory;
use std::alloc::Global;
use std::marker::Model;

/// The devices of a board. `msip` and `mtimecmp` have a place for each of the `MAX_HARTS` harts that a
/// board can have; contracts see those of the harts that it has.
#[derive(Drop)]
pub struct Devices {
    harts: u8,
    msip: [bool; 8],
    mtimecmp: [u64; 8],
    mtime: u64,
    sent: Vec<u8>,
    spare: u32,
    stop: Option<u32>,
}

impl Model for Devices {
    ghost use Rattle.device_board.specs.State as state;
    ghost use Rattle.std.specs.Prelude.{◌+◌, ◌≤◌, take, vec_len, vec_capacity};

    ghost Value = { state.DevicesWithRoom };

    ghost view = { λ d. record {
      devices = record {
        harts = d.harts;
        msip = take d.harts d.msip;
        mtimecmp = take d.harts d.mtimecmp;
        mtime = d.mtime;
        sent = d.sent.items;
        stop = d.stop;
      };
      spare = d.spare;
    } };

    ghost invariant = { λ d. (d.harts ≤ 8) × (vec_len d.sent + d.spare ≤ vec_capacity d.sent) };
}

/// What an access loaded, and the input from outside that it had.
#[derive(Clone, Copy, Debug, PartialEq, Eq)]
pub struct Touched {
    pub loaded: u32,
    pub input: Input,
}

/// The console failed, and the access isn't made.
#[derive(Clone, Copy, Debug, PartialEq, Eq)]
pub struct ConsoleFailed;

impl Devices {
    /// The devices at the start of a run, with no room for a console byte yet. It takes no memory.
    #[tactic(auto, using(crate::proofs::Places::take_eight))]
    pub fn start(alloc: Global, harts: u8) -> Devices
        requires { harts ≤ MAX_HARTS }
        ensures { result ≡ record { devices = devices_at_start harts; spare = 0 } }
    {
        Devices {
            harts,
            msip: [false; 8],
            mtimecmp: [u64::MAX; 8],
            mtime: 0,
            sent: Vec::new(alloc),
            spare: 0,
            stop: None,
        }
    }

    /// Makes room for this many further console bytes, where there isn't so much already.
    pub fn reserve(&mut self, n: u32) -> Result<(), NoMemory>
        ensures room { OnOk result (self.new ≡ record self.old { spare = max self.old.spare n }) }
        ensures refused { OnErr result (self.new ≡ self.old) }
    {
        if n > self.spare {
            if self.sent.reserve(n as usize).is_err() {
                return Err(NoMemory);
            }
            self.spare = n;
        }
        Ok(())
    }

    /// The lines that a hart would have with mtime being `time`: bit 0 software, bit 1 timer.
    pub fn lines_at(&self, hart: u8, time: u64) -> u8
        requires { hart < self.now.devices.harts }
        ensures lines { result ≡ lines_at self.now.devices hart time }
        ensures below { result < 4 }
    {
        let timer = self.mtimecmp[hart as usize] <= time;
        u8::from(self.msip[hart as usize]) + u8::from(timer) * 2
    }

    /// The lines of a hart now.
    pub fn lines(&self, hart: u8) -> u8
        requires { hart < self.now.devices.harts }
        ensures lines { result ≡ lines self.now.devices hart }
        ensures below { result < 4 }
    {
        self.lines_at(hart, self.mtime)
    }

    /// Lets mtime become the greater of itself and `now`, and answers it.
    pub fn poll(&mut self, now: u64) -> u64
        ensures devices { self.new.devices ≡ with_time (max self.old.devices.mtime now) self.old.devices }
        ensures answer { result ≡ max self.old.devices.mtime now }
        ensures spare { self.new.spare ≡ self.old.spare }
    {
        if now > self.mtime {
            self.mtime = now;
        }
        self.mtime
    }

    /// The word that was stored to STOP, where one was.
    pub fn stop(&self) -> Option<u32>
        ensures { result ≡ self.now.devices.stop }
    {
        self.stop
    }

    /// mtime.
    pub fn time(&self) -> u64
        ensures { result ≡ self.now.devices.mtime }
    {
        self.mtime
    }

    /// The bytes sent to the console, in order.
    pub fn sent(&self) -> &[u8]
        ensures { result.now ≡ self.now.devices.sent }
    {
        self.sent.as_slice()
    }

    /// Gives up the bytes sent to the console, in order. It takes no memory.
    pub fn into_sent(self) -> Vec<u8>
        ensures { result.items ≡ self.devices.sent }
    {
        self.sent
    }

    fn load_time(&mut self, time: u64, half: u32) -> Option<u32>
        ensures devices { MadeAgain (timed self.old.devices time half) self.old.devices self.new.devices result }
        ensures harts { self.new.devices.harts ≡ self.old.devices.harts }
        ensures spare { self.new.spare ≡ self.old.spare }
    {
        if time < self.mtime {
            return None;
        }
        self.mtime = time;
        Some(half)
    }

    fn load(&mut self, word: DeviceWord, input: Input) -> Option<u32>
        requires { IsOfHart self.old.devices.harts word }
        ensures devices { MadeAgain (loaded self.old.devices word input) self.old.devices self.new.devices result }
        ensures harts { self.new.devices.harts ≡ self.old.devices.harts }
        ensures spare { self.new.spare ≡ self.old.spare }
    {
        match (word, input) {
            (DeviceWord::Msip(h), Input::Nothing) => Some(u32::from(self.msip[h as usize])),
            (DeviceWord::CompareLow(h), Input::Nothing) => Some(low_half(
                self.mtimecmp[h as usize],
            )),
            (DeviceWord::CompareHigh(h), Input::Nothing) => Some(high_half(
                self.mtimecmp[h as usize],
            )),
            (DeviceWord::TimeLow, Input::Time(t)) => self.load_time(t, low_half(t)),
            (DeviceWord::TimeHigh, Input::Time(t)) => self.load_time(t, high_half(t)),
            (DeviceWord::Rx, Input::Byte(b)) => Some(u32::from(b)),
            (DeviceWord::Rx, Input::Empty) => Some(0xffff_ffff),
            (DeviceWord::Tx, Input::Nothing) => Some(0),
            (DeviceWord::Stop, Input::Nothing) => Some(0),
            _ => None,
        }
    }

    fn send(&mut self, byte: u8)
        requires { 0 < self.old.spare }
        ensures devices { self.new.devices ≡ record self.old.devices { sent = self.old.devices.sent ++ byte ∷ [] } }
        ensures harts { self.new.devices.harts ≡ self.old.devices.harts }
        ensures spare { self.new.spare + 1 ≡ self.old.spare }
    {
        let _ = self.sent.push(byte);
        self.spare -= 1;
    }

    #[tactic(auto, using(crate::proofs::Places::take_set_below, crate::proofs::Places::read_below))]
    fn store(&mut self, word: DeviceWord, value: u32)
        requires hart { IsOfHart self.old.devices.harts word }
        requires room { IsTrue (sends word (Some value)) → 0 < self.old.spare }
        ensures devices { self.new.devices ≡ stored self.old.devices word value }
        ensures harts { self.new.devices.harts ≡ self.old.devices.harts }
        ensures room { RoomIsKept self.old self.new }
    {
        match word {
            DeviceWord::Msip(h) => self.msip[h as usize] = has_bit(value, 0),
            DeviceWord::CompareLow(h) => {
                self.mtimecmp[h as usize] = with_low_half(self.mtimecmp[h as usize], value);
            }
            DeviceWord::CompareHigh(h) => {
                self.mtimecmp[h as usize] = with_high_half(self.mtimecmp[h as usize], value);
            }
            DeviceWord::TimeLow | DeviceWord::TimeHigh | DeviceWord::Rx => {}
            DeviceWord::Tx => self.send((value & 0xff) as u8),
            DeviceWord::Stop => self.stop = Some(value),
        }
    }

    fn touch_word(&mut self, word: DeviceWord, store: Option<u32>, input: Input) -> Option<u32>
        requires hart { IsOfHart self.old.devices.harts word }
        requires room { IsTrue (sends word store) → 0 < self.old.spare }
        ensures devices { MadeAgain (word_touched self.old.devices word store input)
            self.old.devices self.new.devices result }
        ensures harts { self.new.devices.harts ≡ self.old.devices.harts }
        ensures room { RoomIsKept self.old self.new }
    {
        match (store, input) {
            (None, _) => self.load(word, input),
            (Some(value), Input::Nothing) => {
                self.store(word, value);
                Some(0)
            }
            _ => None,
        }
    }

    /// Makes a recorded access of a device word again: None, and nothing changed, exactly where the
    /// input doesn't suit it. No device word asks which hart it is.
    pub fn replay_touch(&mut self, _hart: u8, access: Access, input: Input) -> Option<u32>
        requires word { IsSome (device_word self.old.devices.harts access.at) }
        requires room { HasRoom self.old access }
        ensures devices { MadeAgain (touched self.old.devices access input) self.old.devices self.new.devices result }
        ensures harts { self.new.devices.harts ≡ self.old.devices.harts }
        ensures room { RoomIsKept self.old self.new }
    {
        match device_word(access.at, self.harts) {
            Some(word) => self.touch_word(word, access.store, input),
            None => None,
        }
    }

    /// Makes an access of a device word, `now` being the clock's answer: a load of RX asks the console
    /// once, a store to TX gives it one byte, and no other access calls it. No device word asks which
    /// hart it is.
    pub fn touch<C: Console>(
        &mut self,
        console: &mut C,
        _hart: u8,
        access: Access,
        now: u64,
    ) -> Result<Touched, ConsoleFailed>
        requires word { IsSome (device_word self.old.devices.harts access.at) }
        requires room { HasRoom self.old access }
        ensures devices { IfOk result
            (λ t. touched self.old.devices access t.input ≡ Some (self.new.devices, t.loaded)) }
        ensures harts { self.new.devices.harts ≡ self.old.devices.harts }
        ensures room { RoomIsKept self.old self.new }

        // Its input, and the answer of the console that it took.
        ensures input { IfOk result
            (λ t. AccessHas self.old.devices access now (C.seen console.old) (C.seen console.new) t.input) }
        ensures given { OnOk result (AccessGives self.old.devices access (C.seen console.old) (C.seen console.new)) }
        ensures alone { IfSome (device_word self.old.devices.harts access.at)
            (λ word. uses_console word access.store ≡ false → console.new ≡ console.old) }
        ensures tells_answers { ToldBefore (C.seen console.old).tells_answers (C.seen console.new).tells_answers }
        ensures tells_taken { ToldBefore (C.seen console.old).tells_taken (C.seen console.new).tells_taken }

        // After a failure nothing is changed, and the console gave no answer and took no byte.
        ensures cause { HasCause (C.seen console.old).faults (C.seen console.new).faults result }
        ensures asks { OnErr result (AccessUsesConsole self.old.devices access) }
        ensures as_before { OnErr result (self.new ≡ self.old) }
        ensures no_answer { OnErr result (AnswersNothing (C.seen console.old) (C.seen console.new)) }
        ensures no_byte { OnErr result (TakesNothing (C.seen console.old) (C.seen console.new)) }
    {
        let Some(word) = device_word(access.at, self.harts) else {
            unreachable!()
        };
        let Ok(input) = recorded_input(console, word, access.store, self.mtime, now) else {
            return Err(ConsoleFailed);
        };
        match self.touch_word(word, access.store, input) {
            Some(loaded) => Ok(Touched { loaded, input }),
            None => unreachable!(),
        }
    }
}
