//! What the board keeps of each hart.

ghost use Rattle.std.specs.Prelude.{◌≡◌, ◌<◌, ◌-◌, ◌^◌, length, map, replicate, IfOk, OnOk, None, Some};
ghost use Rattle.std.specs.List.{list_all};
ghost use Rattle.log_entry.specs.Room.{entry_without_room};
ghost use Rattle.crew_core.specs.Seats.{no_seat, seat_of, entered_at, counted_at, polled_at, touched_at, told_at};
ghost use Rattle.crew_core.specs.Seats.{is_at, without_room, HasRoomFor, HasRoomForAll};

use crate::lane::Lane;
use crate::order::Order;
use log_entry::Entry;
use shared_types::NoMemory;
use std::alloc::Global;
use std::marker::Model;

/// What the board keeps of one hart.
#[derive(Drop)]
pub(crate) struct Seat {
    pub(crate) lane: Lane,
    /// The moves that its turns committed.
    pub(crate) count: u64,
    /// The count of its latest Poll.
    pub(crate) polled: Option<u64>,
    pub(crate) order: Option<Order>,
}

/// A seat for each hart.
#[derive(Drop)]
pub(crate) struct Seats {
    pub(crate) seats: Vec<Seat>,
}

impl Model for Seats {
    ghost use Rattle.std.specs.Prelude.{List};
    ghost use Rattle.crew_core.specs.declared.seat.Seat.{Seat};

    ghost Value = { List Seat };

    ghost view = { λ s. s.seats.items };
}

impl Seats {
    /// The seats of so many harts before any turn.
    pub(crate) fn start(alloc: Global, harts: u8) -> Result<Seats, NoMemory>
        ensures { IfOk result (λ s. s ≡ replicate harts no_seat) }
    {
        let seats = first_seats(alloc, harts)?;
        Ok(Seats { seats })
    }

    /// The moves that a hart's turns committed.
    pub(crate) fn count(&self, hart: u8) -> u64
        requires { hart < length self.now }
        ensures { result ≡ (seat_of self.now hart).count }
    {
        self.seats[hart as usize].count
    }

    /// The count of a hart's latest Poll.
    pub(crate) fn polled(&self, hart: u8) -> Option<u64>
        requires { hart < length self.now }
        ensures { result ≡ (seat_of self.now hart).polled }
    {
        self.seats[hart as usize].polled
    }

    /// How many entries a hart has.
    pub(crate) fn entries(&self, hart: u8) -> u64
        requires { hart < length self.now }
        ensures value { result ≡ length (seat_of self.now hart).lane.entries }
        ensures bound { result < 2 ^ 63 }
    {
        self.seats[hart as usize].lane.len()
    }

    /// What a hart was told last.
    pub(crate) fn order(&self, hart: u8) -> Option<Order>
        requires { hart < length self.now }
        ensures { result ≡ (seat_of self.now hart).order }
    {
        self.seats[hart as usize].order
    }

    /// Tells a hart how it goes on.
    pub(crate) fn tell(&mut self, hart: u8, order: Order)
        requires { hart < length self.old }
        ensures { self.new ≡ told_at hart order self.old }
    {
        self.seats[hart as usize].order = Some(order);
    }

    /// Sets the moves that a hart's turns committed.
    pub(crate) fn commit(&mut self, hart: u8, count: u64)
        requires { hart < length self.old }
        ensures { self.new ≡ counted_at hart count self.old }
    {
        self.seats[hart as usize].count = count;
    }

    /// Adds a Poll of a hart at a count. It takes no memory.
    pub(crate) fn poll(&mut self, hart: u8, entry: Entry, count: u64)
        requires hart { hart < length self.old }
        requires room { HasRoomFor 1 self.old hart }
        ensures { self.new ≡ polled_at hart (entry_without_room entry) count self.old }
    {
        let seat = &mut self.seats[hart as usize];
        seat.lane.push(entry);
        seat.polled = Some(count);
    }

    /// Adds a Touch of a hart, which is a move. It takes no memory.
    pub(crate) fn touch(&mut self, hart: u8, entry: Entry)
        requires hart { hart < length self.old }
        requires room { HasRoomFor 1 self.old hart }
        requires count { (seat_of self.old hart).count < 2 ^ 64 - 1 }
        ensures { self.new ≡ touched_at hart (entry_without_room entry) self.old }
    {
        let seat = &mut self.seats[hart as usize];
        seat.lane.push(entry);
        seat.count += 1;
    }

    /// Adds an entry of a hart. It takes no memory.
    pub(crate) fn enter(&mut self, hart: u8, entry: Entry)
        requires hart { hart < length self.old }
        requires room { HasRoomFor 1 self.old hart }
        ensures { self.new ≡ entered_at hart (entry_without_room entry) self.old }
    {
        self.seats[hart as usize].lane.push(entry);
    }

    /// Whether the turns of each hart committed so many moves.
    pub(crate) fn are_at(&self, limit: u64) -> bool
        ensures { result ≡ list_all (is_at limit) self.now }
    {
        all_at(&self.seats, limit)
    }

    /// Makes room for so many more entries of each hart.
    pub(crate) fn reserve(&mut self, more: usize) -> Result<(), NoMemory>
        requires { more < 2 ^ 32 }
        ensures same { map without_room self.new ≡ map without_room self.old }
        ensures room { OnOk result (HasRoomForAll more self.new) }
    {
        reserve_all(&mut self.seats, more)
    }
}

fn all_at(seats: &[Seat], limit: u64) -> bool
    ensures { result ≡ list_all (is_at limit) seats.now }
{
    seats.iter().all(|seat| seat.count == limit)
}

fn reserve_all(seats: &mut [Seat], more: usize) -> Result<(), NoMemory>
    requires { more < 2 ^ 32 }
    ensures same { map without_room seats.new ≡ map without_room seats.old }
    ensures room { OnOk result (HasRoomForAll more seats.new) }
{
    for hart in 0..seats.len() {
        seats[hart].lane.reserve(more)?;
    }
    Ok(())
}

fn first_seats(alloc: Global, harts: u8) -> Result<Vec<Seat>, NoMemory>
    ensures { IfOk result (λ v. v.items ≡ replicate harts no_seat) }
{
    let Ok(mut seats) = Vec::with_capacity(alloc, usize::from(harts)) else {
        return Err(NoMemory);
    };
    for _ in 0..harts {
        let lane = Lane::start(alloc)?;
        let seat = Seat {
            lane,
            count: 0,
            polled: None,
            order: None,
        };
        let Ok(()) = seats.push(seat) else {
            return Err(NoMemory);
        };
    }
    Ok(seats)
}
