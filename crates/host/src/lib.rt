// The one call for the C host: a card of two parcels in, a report out. `host_c` hands it to C under the same name.
#![tactic(auto)]

ghost use Rattle.std.specs.Prelude.{◌≡◌};
ghost use Rattle.region.specs.Refusals.{number_in};
ghost use Rattle.report.specs.Report.{host_number, host_report};

use carried::pair_in;
use contents::GoodCard;
use endian::put_all;
use pair::report_words;
use region::refusals::Refusal;

const REPORT_LENGTH: usize = 38;

// Nothing is written before the answer is there.
fn fill(card: &[u8], report: &mut [u8]) -> Result<(), Refusal>
    ensures value { number_in result ≡ host_number card.now report.old }
    ensures report_after { report.new ≡ host_report card.now report.old }
{
    if report.len() < REPORT_LENGTH {
        return Err(Refusal::BufferShort);
    }
    let good = GoodCard::read(card)?;
    if good.parcel_count() != 2 {
        return Err(Refusal::NotTwoParcels);
    }
    let a = pair_in(&good, 0, 1);
    put_all(report, 0, &report_words(Ok(a)));
    Ok(())
}

// The number: C has no Result.
pub fn direction_report(card: &[u8], report: &mut [u8]) -> u32
    ensures value { result ≡ host_number card.now report.old }
    ensures report_after { report.new ≡ host_report card.now report.old }
{
    match fill(card, report) {
        Ok(()) => 0,
        Err(refusal) => u16::from(refusal) as u32,
    }
}
