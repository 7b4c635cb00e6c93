// The archive for the C host: the one call of `host` under the name that C links.
#![tactic(auto)]

ghost use Rattle.std.specs.Prelude.{◌≡◌};
ghost use Rattle.report.specs.Report.{host_number, host_report};

#[unsafe(no_mangle)]
pub extern "C" fn direction_report(card: &[u8], report: &mut [u8]) -> u32
    ensures value { result ≡ host_number card.now report.old }
    ensures report_after { report.new ≡ host_report card.now report.old }
{
    host::direction_report(card, report)
}
