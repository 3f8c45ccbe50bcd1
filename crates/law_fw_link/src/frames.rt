//! Laws of frames in the joint run, for any working processor.

ghost use Rattle.law_fw_link.specs.Frames.{CutLaw, GotLaw, IsCut, PulledLaw, ReceivesFrames, SendsFrames, SentLaw};
ghost use Rattle.law_fw_link.specs.Reading.{DropsLaw, ReadsLaw};

use fw_kernel::KERNEL;
use mcs48_isa::Image;

/// A sent frame: if the controller leaves the clock alone at all 22 looks, the run comes from `SEND`
/// to `SENT` in 368 cycles. In each of them the latch of port 2 is that of the byte's frame, and the PC's side has gone
/// on by the cycles at its wires. Both latches, F1 and memory but for R0 to R3 and R6 stay. Nothing is done when it is
/// called; the law is its contract.
pub fn frame_sent()
    ensures sent { SentLaw }
{}

/// A cut frame: if the controller pulls the clock at a look, and at none before, the run comes from `SEND` to `SCAN` within
/// 6 cycles of the look. In each cycle the latch of port 2 is that of the byte's frame up to two cycles after the look, and
/// then both wires are released; so at the two looks before the first fall the clock hasn't fallen. The same stays as after a
/// sent frame. If the controller began to pull between the looks of the tick and the first edge, it pulls at the look of the
/// first cell. Nothing is done when it is called; the law is its contract.
pub fn frame_cut()
    ensures cut { CutLaw }
    ensures pulled { PulledLaw }
{}

/// A received frame: if the controller requests at the second look at data, two cycles before the first edge, and
/// there, the run comes from `GOT` to `COMMAND` in 366 cycles; R4 is the controller's byte, R5 is 255, which says that its parity was right. In each cycle the latch of
/// port 2 is that of a received frame: the clock falls eleven times, and data is low at the eleventh fall alone, from 12
/// cycles before it on.
/// Both latches, F1 and memory but for R0, R1, R3, R4 and R5 stay. Whatever is beside the processor, R4 is the byte
/// of the first eight looks at data, and R5 is 255 if the ninth is its parity, and else 0; and if data is high at
/// the second look, nothing is received and no wire is pulled. Nothing is done when it
/// is called; the laws are its contract.
pub fn frame_received()
    ensures received { GotLaw }
    ensures reads { ReadsLaw }
    ensures drops { DropsLaw }
{}

/// The kernel with empty tables, as an image: it sends, is cut and receives by these laws.
pub fn bare_kernel() -> Image
    ensures sends { SendsFrames result.bytes }
    ensures cut { IsCut result.bytes }
    ensures receives { ReceivesFrames result.bytes }
{
    let bytes = KERNEL;
    Image { bytes }
}
