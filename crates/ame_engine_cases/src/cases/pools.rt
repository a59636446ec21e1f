//! Rows of calls of a pool, and which members begin one after another then.

ghost use Rattle.std.specs.Prelude.{◌≡◌, None, IsTrue};
ghost use Rattle.ame_pool.specs.Members.{find, is_ready as is_ready_member, is_busy as is_busy_member};
ghost use Rattle.ame_pool.specs.Calls.{IsAt, is_running as is_running_member, is_noted as is_noted_member};

use Oldest::{Empty, Member, Parked, Wait};
use Step::*;
use ame_pool::{MemberStanding, Oldest, Pool};
use ame_term::Loc;
use std::alloc::Global;
use std::process::Abort;
use std::test::Fail;

/// A call of a pool whose machines are numbers.
#[derive(Clone, Copy)]
enum Step {
    Add(u64),
    /// Added inside.
    AddInside(u64),
    Begin(u64),
    Home(u64),
    RollBack(u64),
    Replace(u64),
    Remove(u64),
    /// Noted on one location, or on two.
    Note(u64, u32),
    NoteBoth(u64, u32, u32),
    Park(u64),
    Wake(u32),
    /// Begun and rolled back nine times.
    Wear(u64),
}

/// Calls, the members that begin one after another then, and what the pool says of the next.
type Row = (&'static [Step], &'static [u64], Oldest);

fn lacks(pool: &Pool<u64>, number: u64) -> bool
    ensures { IsTrue result → find number pool.now.members ≡ None }
{
    match pool.member(number) {
        Some(_) => false,
        None => true,
    }
}

fn is_ready(pool: &Pool<u64>, number: u64) -> bool
    ensures { IsTrue result → IsAt is_ready_member number pool.now }
{
    match pool.member(number) {
        Some(member) => matches!(&member.standing, MemberStanding::Ready),
        None => false,
    }
}

fn is_busy(pool: &Pool<u64>, number: u64) -> bool
    ensures { IsTrue result → IsAt is_busy_member number pool.now }
{
    match pool.member(number) {
        Some(member) => matches!(&member.standing, MemberStanding::Busy(_)),
        None => false,
    }
}

fn is_running(pool: &Pool<u64>, number: u64) -> bool
    ensures { IsTrue result → IsAt is_running_member number pool.now }
{
    match pool.member(number) {
        Some(member) => matches!(&member.standing, MemberStanding::Busy(None)),
        None => false,
    }
}

fn is_noted(pool: &Pool<u64>, number: u64) -> bool
    ensures { IsTrue result → IsAt is_noted_member number pool.now }
{
    match pool.member(number) {
        Some(member) => matches!(&member.standing, MemberStanding::Busy(Some(_))),
        None => false,
    }
}

fn rollbacks(pool: &Pool<u64>, number: u64) -> Option<u8> {
    match pool.member(number) {
        Some(member) => Some(member.rollbacks),
        None => None,
    }
}

fn list(alloc: Global, locs: &[u32]) -> Result<Vec<Loc>, Fail> {
    let mut watch = Vec::new(alloc);
    for l in locs {
        watch.push(Loc(*l))?;
    }
    Ok(watch)
}

fn add(rt: &impl Abort, pool: &mut Pool<u64>, number: u64, inside: bool) {
    let room = pool.room(1);
    assert!(rt; room.is_ok());
    assert!(rt; lacks(pool, number));
    pool.add(number, number, inside);
}

fn begin(rt: &impl Abort, pool: &mut Pool<u64>, number: u64) {
    assert!(rt; is_ready(pool, number));
    pool.begin(number);
}

fn home(rt: &impl Abort, pool: &mut Pool<u64>, number: u64, rolled_back: bool) {
    assert!(rt; is_running(pool, number));
    pool.home(number, rolled_back);
}

fn note(
    rt: &impl Abort,
    alloc: Global,
    pool: &mut Pool<u64>,
    number: u64,
    locs: &[u32],
) -> Result<(), Fail> {
    let watch = list(alloc, locs)?;
    assert!(rt; is_busy(pool, number));
    let noted = pool.note(number, watch);
    assert!(rt; noted.is_ok());
    Ok(())
}

fn make(rt: &impl Abort, alloc: Global, pool: &mut Pool<u64>, step: &Step) -> Result<(), Fail> {
    match *step {
        Add(number) => add(rt, pool, number, false),
        AddInside(number) => add(rt, pool, number, true),
        Begin(number) => begin(rt, pool, number),
        Home(number) => home(rt, pool, number, false),
        RollBack(number) => home(rt, pool, number, true),
        Replace(number) => {
            assert!(rt; is_busy(pool, number));
            pool.replace(number, number, false);
        }
        Remove(number) => {
            assert!(rt; is_busy(pool, number));
            let machine = pool.remove(number);
            assert!(rt; machine == number);
        }
        Note(number, l) => note(rt, alloc, pool, number, &[l])?,
        NoteBoth(number, l, k) => note(rt, alloc, pool, number, &[l, k])?,
        Park(number) => {
            assert!(rt; is_noted(pool, number));
            pool.park(number);
        }
        Wake(l) => pool.wake(Loc(l)),
        Wear(number) => {
            for _ in 0..9u8 {
                begin(rt, pool, number);
                home(rt, pool, number, true);
            }
        }
    }
    Ok(())
}

fn run(rt: &impl Abort, alloc: Global, steps: &[Step]) -> Result<Pool<u64>, Fail> {
    let mut pool = Pool::new(alloc);
    for next in steps {
        make(rt, alloc, &mut pool, next)?;
    }
    Ok(pool)
}

fn expect(rt: &impl Abort, alloc: Global, rows: &[Row]) -> Result<(), Fail> {
    for (steps, begun, last) in rows {
        let mut pool = run(rt, alloc, steps)?;
        for number in *begun {
            assert!(rt; pool.oldest() == Member(*number));
            begin(rt, &mut pool, *number);
        }
        assert!(rt; pool.oldest() == *last);
    }
    Ok(())
}

#[test]
fn ready_members_begin_in_order(rt: HostRuntime) -> Result<(), Fail> {
    expect(
        &rt,
        rt.alloc(),
        &[
            (&[], &[], Empty),
            (&[Add(1), Begin(1), Remove(1)], &[], Empty),
            (&[Add(5), Add(3), AddInside(4)], &[5, 3, 4], Wait),
            (&[Add(1), Add(2), Begin(1), Home(1)], &[2, 1], Wait),
            (&[Add(1), Add(2), Begin(1), RollBack(1)], &[2, 1], Wait),
            (&[Add(1), Add(2), Begin(1), Replace(1)], &[2, 1], Wait),
            (&[Add(1), Add(2), Add(3), Begin(2)], &[1, 3], Wait),
        ],
    )
}

#[test]
fn a_write_wakes_its_watchers(rt: HostRuntime) -> Result<(), Fail> {
    expect(
        &rt,
        rt.alloc(),
        &[
            (&[Add(1), Begin(1), Note(1, 4), Park(1)], &[], Parked),
            (
                &[Add(1), Begin(1), NoteBoth(1, 4, 5), Park(1), Wake(6)],
                &[],
                Parked,
            ),
            (
                &[Add(1), Begin(1), NoteBoth(1, 4, 5), Park(1), Wake(5)],
                &[1],
                Wait,
            ),
            (
                &[
                    Add(1),
                    Add(2),
                    Begin(1),
                    Begin(2),
                    Note(1, 4),
                    Note(2, 4),
                    Park(2),
                    Park(1),
                    Wake(4),
                ],
                &[1, 2],
                Wait,
            ),
            (
                &[Add(1), Add(2), Begin(1), Note(1, 4), Wake(4), Park(1)],
                &[2, 1],
                Wait,
            ),
            (
                &[Add(1), Add(2), Begin(1), Note(1, 4), Wake(5), Park(1)],
                &[2],
                Wait,
            ),
            (&[Add(1), Begin(1), Note(1, 4), Replace(1)], &[1], Wait),
        ],
    )
}

#[test]
fn an_exhausted_member_begins_alone(rt: HostRuntime) -> Result<(), Fail> {
    expect(
        &rt,
        rt.alloc(),
        &[
            (&[Add(1), Wear(1), Add(2)], &[1], Wait),
            (&[Add(1), Wear(1), Add(2), Begin(2)], &[], Wait),
            (
                &[Add(1), Wear(1), Begin(1), Replace(1), Add(2)],
                &[1, 2],
                Wait,
            ),
            (&[Add(1), Wear(1), Add(2), Add(3), Begin(2)], &[], Wait),
            (&[Add(1), Add(2), Wear(1), Add(3), Begin(3)], &[2], Wait),
            (&[Add(1), Wear(1), AddInside(2)], &[1, 2], Wait),
            (&[Add(1), Wear(1), AddInside(2), Begin(2)], &[1], Wait),
            (
                &[
                    Add(1),
                    Wear(1),
                    Add(2),
                    Begin(2),
                    AddInside(3),
                    AddInside(4),
                    Add(5),
                    Begin(3),
                    Home(3),
                ],
                &[4, 3],
                Wait,
            ),
        ],
    )
}

#[test]
fn rollbacks_end_at_eight(rt: HostRuntime) -> Result<(), Fail> {
    let alloc = rt.alloc();
    let exhausted = run(&rt, alloc, &[Add(1), Wear(1)])?;
    assert!(&rt; rollbacks(&exhausted, 1) == Some(8));
    let noted = run(&rt, alloc, &[Add(1), Wear(1), Begin(1), Note(1, 0)])?;
    assert!(&rt; rollbacks(&noted, 1) == Some(0));
    Ok(())
}
