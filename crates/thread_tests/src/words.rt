//! The cancel word.
ghost use Rattle.std.specs.Prelude.{ℕ, ◌≡◌, ◌≤◌, ◌<◌, ◌^◌, true, false, All, IfOk, IsTrue};
ghost use Rattle.cancel_word.specs.Word.{has};
ghost use Rattle.cancel_word.specs.Seats.{IsOf, view_of};

use cancel_word::{Cancel, Decided, StopSeat, WordPoll};
use sat_core::Poll;
use std::alloc::{AllocError, Global};
use std::test::Fail;
use std::thread;
use std::thread::Threads;

#[test]
fn one_seat_stops_the_other(rt: HostRuntime) -> Result<(), Fail> {
    let (word, mut first) = Cancel::new(rt.alloc(), 2)?;
    let mut second = word.split(&mut first, 0);
    assert!(rt; !word.is_set(&mut first));
    assert!(rt; word.stop(&mut second, &Decided { at: 3 }));
    assert!(rt; word.is_set(&mut first));
    assert!(rt; !word.stop(&mut first, &Decided { at: 3 }));
    word.join(&mut first, second);
    assert_eq!(rt; word.close(first), 1);
    Ok(())
}

#[test]
fn a_word_that_nobody_sets_stays_0(rt: HostRuntime) -> Result<(), Fail> {
    let (word, mut seat) = Cancel::new(rt.alloc(), 5)?;
    assert!(rt; !word.is_set(&mut seat));
    assert_eq!(rt; word.close(seat), 0);
    Ok(())
}

/// Whether a poll says yes, as what takes long asks it.
fn asked<P: Poll>(poll: &mut P) -> bool
    requires { P.ready poll.old }
    ensures ready { P.ready poll.new }
    ensures held { P.held poll.new ≡ P.held poll.old }
    ensures yes { IsTrue result → 0 < P.yeses poll.new }
{
    poll.stop()
}

/// Whether a poll over the word says yes. The seat keeps what it was made with, and has then seen the word set.
fn is_stopped(word: &Cancel, seat: &mut StopSeat) -> bool
    requires { IsOf word.now seat.old }
    ensures seat { IsOf word.now seat.new }
    ensures own { seat.new.own ≡ seat.old.own }
    ensures numbers { (view_of seat.new).numbers ≡ (view_of seat.old).numbers }
    ensures decided { (view_of seat.new).decided ≡ (view_of seat.old).decided }
    ensures seen { IsTrue result → (view_of seat.new).seen ≡ true }
{
    let mut poll = WordPoll::new(word, seat);
    asked(&mut poll)
}

#[test]
fn a_poll_follows_the_word(rt: HostRuntime) -> Result<(), Fail> {
    let (word, mut first) = Cancel::new(rt.alloc(), 2)?;
    let mut second = word.split(&mut first, 0);
    let mut poll = WordPoll::new(&word, &mut first);
    assert!(rt; !poll.stop());
    assert!(rt; word.stop(&mut second, &Decided { at: 3 }));
    assert!(rt; poll.stop());
    assert!(rt; asked(&mut poll));
    assert!(rt; is_stopped(&word, &mut second));
    assert!(rt; is_stopped(&word, &mut first));
    word.join(&mut first, second);
    assert_eq!(rt; word.close(first), 1);
    Ok(())
}

/// How many threads race.
const RACERS: u64 = 64;

/// A seat, and whether it won.
#[derive(Drop)]
struct Racer {
    seat: StopSeat,
    won: bool,
}

/// Seats for the numbers below the first seat's own.
fn split_all(
    alloc: Global,
    word: &Cancel,
    first: &mut StopSeat,
) -> Result<Vec<StopSeat>, AllocError>
    requires seat { IsOf word.now first.old }
    requires own { first.old.own ≡ 64 }
    requires numbers { (n : ℕ) → n < 65 → has n (view_of first.old).numbers ≡ true }
    requires undecided { (view_of first.old).decided ≡ false }
    ensures seat { IsOf word.now first.new }
    ensures seats { IfOk result (λ v. All (IsOf word.now) v.items) }
{
    let mut seats = Vec::new(alloc);
    for number in 0..64 {
        seats.push(word.split(first, number))?;
    }
    Ok(seats)
}

/// Tries to stop, by a seat.
fn raced(word: &Cancel, mut seat: StopSeat) -> Racer
    requires { IsOf word.now seat }
    ensures { IsOf word.now result.seat }
{
    let won = word.stop(&mut seat, &Decided { at: 7 });
    Racer { seat, won }
}

/// Lets all seats try to stop, each in a thread of its own.
fn race<R: Threads + Sync>(
    rt: &R,
    word: &Cancel,
    seats: Vec<StopSeat>,
) -> Result<Vec<Racer>, AllocError>
    requires { All (IsOf word.now) seats.items }
    ensures { IfOk result (λ v. All (λ r. IsOf word.now r.seat) v.items) }
{
    thread::map_vec(
        rt,
        seats,
        &|seat: StopSeat| -> Racer
            requires { IsOf word.now seat }
            ensures { IsOf word.entry.now result.seat }
        { raced(word, seat) },
    )
}

/// Joins all seats into the first.
fn join_all(word: &Cancel, first: &mut StopSeat, racers: Vec<Racer>)
    requires seat { IsOf word.now first.old }
    requires seats { All (λ r. IsOf word.now r.seat) racers.items }
    ensures seat { IsOf word.now first.new }
{
    for racer in racers {
        word.join(first, racer.seat);
    }
}

#[test]
fn one_of_64_threads_wins(rt: HostRuntime) -> Result<(), Fail> {
    let (word, mut first) = Cancel::new(rt.alloc(), RACERS + 1)?;
    let mut seats = split_all(rt.alloc(), &word, &mut first)?;
    let racers = race(&rt, &word, seats)?;
    let winner = racers.as_slice().iter().position(|racer| racer.won);
    let winners = racers.as_slice().iter().filter(|racer| racer.won).count();
    assert_eq!(rt; winners, 1);
    assert_eq!(rt; racers.len(), 64);
    assert!(rt; !word.stop(&mut first, &Decided { at: 7 }));
    join_all(&word, &mut first, racers);
    let number = winner.map_or(0, |at| at as u64 + 1);
    assert_eq!(rt; word.close(first), number);
    Ok(())
}
