//! What `sandbox help faults` prints.

use meanings::{errnos, faults};

/// The help, of the rows of the faults and of the errnos. What no command prints isn't there.
macro_rules! help {
    (
        { $($of_one_digit:literal $a:literal)* }
        { $($of_two_digits:literal $b:literal)* }
        { $($elsewhere:literal $c:literal)* }
        { $($unprinted:literal $d:literal)* }
        { $($errno_of_one_digit:literal $e:literal)* }
        { $($errno:literal $f:literal)* }
    ) => {
        concat!(
            "\
Faults: a line \"sandbox: fault N\" on standard error, and status 124 (123 where the
guest's calls could not all be kept). AT counts bytes from the beginning of the
module's file.

",
            $("  ", $of_one_digit, " at AT   ", $a, "\n",)*
            $("  ", $of_two_digits, " at AT  ", $b, "\n",)*
            $("  ", $elsewhere, "        ", $c, "\n",)*
            "
Fault 15 is a --dir without =, or whose name is empty or over 255 bytes; over 64
of them; arguments, or texts of the environment, over 1024 or over 65536 bytes;
--pages over 65536; --image with --volume; --volume-out without --image; --seed
with --random; --profile-every without --profile, or of 0; --tests with an option
for one run; --invoke with --tests, --report or --profile, or of no function for
the numbers that the words are; --large with --huge; or a line of a list of tests
that is not four words. Fault 41 is a file with two parts in a command, too.

Memory that is refused has no number: its line is \"sandbox: out of memory\", and
its status 122.

Errnos: what a guest's calls answer, and of a command on a path a line
\"sandbox: errno N\" with status 124.

",
            $("  ", $errno_of_one_digit, "         ", $e, "\n",)*
            $("  ", $errno, "        ", $f, "\n",)*
        )
    };
}

/// Takes the rows of the errnos, and has those of the faults put before them.
macro_rules! help_of_errnos {
    ($($rows:tt)*) => {
        faults!(help $($rows)*)
    };
}

/// The numbers of the program's lines and of a guest's calls, with what each means.
pub(crate) const MEANINGS: &str = errnos!(help_of_errnos);
