//! The job of a meter: one with the number that the meter has in the list.

ghost use Rattle.std.specs.Prelude.{◌≡◌, Err, IfOk};
ghost use Rattle.dlms_collecting.specs.declared.fault.MeterFault.TheVariants.{AnotherJob};

use crate::fault::MeterFault;
use dlms_fleet::Numbered;
use dlms_inquiries::MeterJob;

/// What the job of the meter with this number does. A job with another number is refused: it is that of another meter.
pub fn own_job(number: usize, job: &Numbered<MeterJob>) -> Result<&MeterJob, MeterFault>
    ensures own { IfOk result (λ own. (job.now.number ≡ number) × (own.now ≡ job.now.job)) }
    ensures other { (job.now.number ≡ number → ⊥) → result ≡ Err AnotherJob }
{
    if job.number != number {
        return Err(MeterFault::AnotherJob);
    }
    Ok(&job.job)
}
