//! The thread of a slave.

ghost use Rattle.std.specs.Prelude.{◌≡◌, ◌<◌, [], ◌∷◌, ◌++◌, IfSome};
ghost use Rattle.rtrb.specs.Ends.{SameRing};
ghost use Rattle.rtrb.specs.Ring.{sent, received, all_sent, known_free, SameProducer, SameConsumer};
ghost use Rattle.ec_slave.specs.Journey.{outs, final};
ghost use Rattle.ec_player.specs.Boxes.{bytes_in};

use crate::seats::{Seat, is_over};
use ec_player::BoxedFrame;
use ec_slave::Pass;
use rtrb::{Consumer, Finished, Producer};
use std::snapshot::Snapshot;
use std::sync::Wait;
use std::thread;
use std::thread::Promise;

/// What the thread of a slave hands back: the slave, the end from which it took, and the finish of the one to which it put.
#[derive(Drop)]
pub(crate) struct Back<X> {
    pub(crate) slave: X,
    pub(crate) taken: Consumer<BoxedFrame>,
    pub(crate) put: Option<Finished<BoxedFrame>>,
}

/// What the thread of a slave was given. It promises that what it put is its slave's pass over what it took.
#[derive(Drop)]
pub(crate) struct Carried<X> {
    pub(crate) slave: Snapshot<X>,
    pub(crate) taken: Snapshot<Consumer<BoxedFrame>>,
    pub(crate) put: Snapshot<Producer<BoxedFrame>>,
}

impl<X: Pass> Promise<Back<X>> for Carried<X> {
    ghost use Rattle.ec_player_threads.specs.Threads.{Carries};

    ghost kept_by = { λ p r. Carries X.out X.next p r };
}

/// Waits until there is room for a frame.
fn wait_for_room<R: Wait>(rt: &R, producer: &mut Producer<BoxedFrame>)
    ensures ring { SameProducer producer.old producer.new }
    ensures sent { sent producer.new ≡ sent producer.old }
    ensures room { 0 < known_free producer.new }
{
    for _ in rt.forever() {
        if !producer.is_full() {
            return;
        }
        thread::yield_now();
    }
    unreachable!()
}

/// Puts a frame, once there is room for it.
fn put_waiting<R: Wait>(rt: &R, producer: &mut Producer<BoxedFrame>, frame: BoxedFrame)
    ensures ring { SameProducer producer.old producer.new }
    ensures sent { sent producer.new ≡ sent producer.old ++ frame ∷ [] }
{
    wait_for_room(rt, producer);
    producer.push_reserved(frame);
}

/// Lets a frame pass a slave, in its box.
fn let_pass<X: Pass>(slave: &mut X, came: BoxedFrame) -> BoxedFrame
    ensures frame { result.value.items ≡ X.out slave.old came.value.items }
    ensures state { slave.new ≡ X.next slave.old came.value.items }
{
    let mut frame = came;
    slave.pass(&mut frame);
    frame
}

/// Lets each frame that comes pass the slave, and puts it to the next ring, until no more can come.
pub(crate) fn carry<X: Pass, R: Wait>(
    rt: &R,
    mut slave: X,
    mut taken: Consumer<BoxedFrame>,
    mut put: Producer<BoxedFrame>,
    seat: Seat<'_>,
) -> Back<X>
    requires { (received taken ≡ []) × (sent put ≡ []) }
    ensures taken { SameConsumer taken result.taken }
    ensures slave { result.slave ≡ final X.out X.next slave (bytes_in (received result.taken)) }
    ensures put { IfSome result.put (λ f. SameRing put.end f.end × (bytes_in (all_sent f) ≡ outs X.out X.next slave (bytes_in (received result.taken)))) }
{
    for _ in rt.forever() {
        if taken.is_empty() {
            if is_over(rt, &mut taken, seat) {
                break;
            }
            continue;
        }
        let came = taken.pop_known();
        let frame = let_pass(&mut slave, came);
        put_waiting(rt, &mut put, frame);
        seat.behind().wake();
    }
    let put = put.finish();
    seat.behind().wake();
    Back { slave, taken, put }
}
