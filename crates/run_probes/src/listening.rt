//! The probe that listens to the wires.

ghost use Rattle.std.specs.Prelude.{◌≡◌};
ghost use Rattle.run_probes.specs.Probes.{awaited_if, ear_after, heard_as, line_kind, looked, meets, sight_of, transfer_heard, unarmed};

use crate::decoder::LineDecoder;
use crate::probe::Probe;
use crate::tally::{Arms, Counter, Tally};
use board_terms::Transfer;
use joint_run::Joint;

/// A probe that is hit if a transfer of the byte `b` is completed on the wires: from the keyboard if `a` is 0, from
/// the host if it is 1. It listens from its first look on, armed or not.
#[derive(Drop)]
pub struct LineProbe {
    counter: Counter,
    decoder: LineDecoder,
}

/// Whether a transfer is what these arms wait for.
fn is_awaited(arms: Option<Arms>, transfer: Option<Transfer>) -> bool
    ensures { result ≡ awaited_if arms transfer }
{
    match (arms, transfer) {
        (Some(arms), Some(transfer)) => {
            arms.a == u16::from(transfer.from_host) && arms.b == transfer.byte
        }
        _ => false,
    }
}

/// Hears the wires of a joint machine, unless the cycle isn't greater than at the last sample. Answers the transfer that
/// is completed.
fn hear(decoder: &mut LineDecoder, joint: &Joint) -> Option<Transfer>
    ensures transfer { result ≡ transfer_heard (sight_of joint.now) decoder.old }
    ensures heard { decoder.new ≡ ear_after (sight_of joint.now) decoder.old }
{
    let cycle = joint.cycle();
    if decoder.is_later_than(cycle) {
        decoder.sample(cycle, joint.lines())
    } else {
        None
    }
}

impl LineProbe {
    /// A probe that isn't armed yet, and has heard nothing.
    pub fn new() -> LineProbe
        ensures unarmed { ⟦<LineProbe as Probe>⟧.watch result ≡ unarmed line_kind }
    {
        LineProbe {
            counter: Counter::new(),
            decoder: LineDecoder::new(),
        }
    }

    /// Looks, whatever the wires are. It is out of line, since they are high in most looks.
    #[inline(never)]
    fn listen(&mut self, step: u64, joint: &Joint) -> bool
        ensures looked { let watch = ⟦<LineProbe as Probe>⟧.watch in
            watch self.new ≡ looked step (sight_of joint.now) (watch self.old) }
        ensures hit { result ≡ meets (sight_of joint.now) (⟦<LineProbe as Probe>⟧.watch self.old) }
    {
        let transfer = hear(&mut self.decoder, joint);
        let met = is_awaited(self.counter.arms(), transfer);
        self.counter.note(step, met);
        met
    }
}

impl Probe for LineProbe {
    ghost watch = { λ p. heard_as p.counter p.decoder };

    fn arm(&mut self, a: u16, b: u8) {
        self.counter.arm(a, b);
    }

    fn look(&mut self, step: u64, joint: &Joint) -> bool {
        if joint.is_let_go() && self.decoder.hear_high(joint.cycle()) {
            return false;
        }
        self.listen(step, joint)
    }

    fn rests(&self, clk: bool) -> bool {
        self.decoder.lines().clk == clk && self.counter.is_unarmed()
    }

    fn tell(&self) -> Tally {
        self.counter.tally()
    }
}
