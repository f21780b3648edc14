//! The text of the help that `-h` prints.

use board_progress::VERSION;
use nor_args::Help;

/// The program's name and version, and the text of the help before and after the list of options.
pub const HELP: Help = Help {
    program: "flashnor-serprog",
    version: VERSION,
    about: "flashnor-serprog 1.0: programs SPI NOR flash at a serial programmer, and can restore it.",
    notes: NOTES,
};

// All lines except the first have at most 80 columns.
const NOTES: &str = "\
TEXT of -p is serprog: and then KEY=VALUE, between commas, each key at most once:
  dev=PATH      The serial port of the programmer; this key is required
  spispeed=HZ   The highest clock: hertz, 500k, 16M; else the programmer's own
  cs=N          The chip select of the programmer, 0 to 255

The command flashnor-serprog that is installed sets up the port. Before you run
the program without it, set it up yourself, or the run may hang:
  stty -F PATH raw -echo clocal -hupcl min 0 time 50

Data is read twice, unless it equals the image; a difference stops the run. A
journal contains the original bytes of each sector that a change modifies, and
the status bytes. --restore needs it: keep it until you accepted the change.

After -w and -E the whole chip is compared with what it should hold, also
outside the regions of -i. After --restore the sectors that its journal lacks
are compared with what they held before it. -N leaves that out: a wrong address
on the wire, which erased or programmed another sector, then stays unnoticed.

--restore rewrites each saved sector. --quick rewrites only those that differ:
use it only if the chip never lost its power while it was being changed.

--backup saves the whole chip in a new journal. Make one before the first write
of a board, and keep it: --restore can restore any sector from it, even one that
was erased by a wrong address on the wire, which no journal of a change has.

After a run that was killed, disconnect the programmer from power for a second
before the next run.

--check-journal says what a journal holds, whether it is complete and undamaged,
and how to restore from it. It needs no programmer. With --extract-image it also
writes the image in a backup into FILE. -v takes a backup in place of an image.

--replaced-chip lets --restore write a backup to another chip of the same type,
whose own contents are lost: make a backup of them first.

With --fmap and --ifd the regions are those of a table on the chip, which is
read before the job. The files of --fmap-file and --ifd-file are images that you
have read from this board with -r: the table is the one in the image.

-i NAME:FILE gives a region a file of its own: -w and -v take the region's bytes
from FILE in place of the image, and -r also writes them into FILE.

Examples: save the chip; write an image and keep a journal; restore the chip:
  flashnor-serprog -p serprog:dev=/dev/ttyACM0 --backup whole.journal
  flashnor-serprog -p serprog:dev=/dev/ttyACM0 -w new.bin --journal j
  flashnor-serprog -p serprog:dev=/dev/ttyACM0 --restore j

Usage fault 1: an argument is not an option, or an option lacks its value
Usage fault 2: no -p, which all but --check-journal, -L, -h and -R need
Usage fault 3: -p isn't serprog: with dev= and only known keys with valid values
Usage fault 4: there is more than one operation
Usage fault 5: a wrong value of --wp-range or --progress, or the file name -
Usage fault 6: -w, -E, --wp-range need --journal, and nothing else takes it
Usage fault 7: -i and one layout need each other, and one of -r, -w, -v, -E
Usage fault 8: -n, -N, --unlock, --quick, --replaced-chip or --extract-image
  with an operation that can't have it
Usage fault 10: out of memory

The manual page, flashnor-serprog(8), says what to do about each fault.";
