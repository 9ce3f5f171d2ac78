//! The report as text.

ghost use Rattle.std.specs.Prelude.{◌≡◌, ◌++◌, Some, IfOk, OnOk};
ghost use Rattle.stream_answers.specs.Printing.{IsPrinted};
ghost use Rattle.sandbox_report.specs.Faults.{Text};
ghost use Rattle.sandbox_report.specs.Reporting.{ending_text, last_text, number_text, report_text, use_text};

use crate::summary::Summary;
use arrayvec::ArrayVec;
use std::io::Write;
use std::{fmt, io};
use stream_answers::{Outlet, print_all};

/// What is printed as a text.
pub trait Printed {
    /// Its text.
    ghost text: { Self → Text };

    /// Prints it. Where that fails, some of it may have been printed.
    fn print<W: Outlet>(&self, out: &mut W) -> io::Result<()>
        ensures { OnOk result (IsPrinted W.took W.contents out.old (text self.now) out.new) };
}

/// A report before it is printed, with room for any.
type ReportLines = ArrayVec<u8, 1024>;

/// A number, or nothing.
#[derive(Clone, Copy)]
struct OptionalNumber(Option<u32>);

impl fmt::Display for OptionalNumber {
    ghost output = { λ n. Some (number_text n.0) };

    fn fmt<W: fmt::Write>(&self, f: &mut fmt::Formatter<W>) -> fmt::Result {
        match self.0 {
            Some(number) => write!(f, "{number}"),
            None => Ok(()),
        }
    }
}

/// Adds how a run ended.
fn add_ending(text: &mut ReportLines, summary: &Summary) -> io::Result<()>
    ensures { OnOk result (text.new.items ≡ text.old.items ++ ending_text summary.now) }
{
    let end = summary.end;
    write!(
        text,
        "end:{}\ncode:{}\ntext:{}\noffset:{}\nstatus:{}\n",
        end.label(),
        OptionalNumber(end.code()),
        end.text(),
        OptionalNumber(end.offset()),
        summary.status
    )
}

/// Adds what it used.
fn add_use(text: &mut ReportLines, summary: &Summary) -> io::Result<()>
    ensures { OnOk result (text.new.items ≡ text.old.items ++ use_text summary.now) }
{
    write!(
        text,
        "units:{}\nfuel:{}\npages:{}\nread:{}\nwritten:{}\ncomplained:{}\ncalls:{}\nsyncs:{}\n",
        summary.units,
        summary.fuel,
        summary.pages,
        summary.read,
        summary.written,
        summary.complained,
        summary.calls,
        summary.syncs
    )
}

/// Adds what became of the volume, who is to blame, and which streams were cut.
fn add_rest(text: &mut ReportLines, summary: &Summary) -> io::Result<()>
    ensures { OnOk result (text.new.items ≡ text.old.items ++ last_text summary.now) }
{
    write!(
        text,
        "volume:{}\nblame:{}\ncut:{}\n",
        summary.volume.text(),
        summary.blame(),
        summary.cut.text()
    )
}

/// All lines of a report.
fn lines_of(summary: &Summary) -> io::Result<ReportLines>
    ensures { IfOk result (λ text. text.items ≡ report_text summary.now) }
{
    let mut text = ReportLines::new();
    add_ending(&mut text, summary)?;
    add_use(&mut text, summary)?;
    add_rest(&mut text, summary)?;
    Ok(text)
}

impl Printed for Summary {
    ghost text = { report_text };

    fn print<W: Outlet>(&self, out: &mut W) -> io::Result<()> {
        let text = lines_of(self)?;
        print_all(out, text.as_slice())
    }
}
