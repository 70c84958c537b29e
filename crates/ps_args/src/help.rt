//! The texts that tell of the program, and of each command: at most 80 columns.

/// What `psalgol --help` tells.
pub const HELP: &str = "psalgol: PS-algol with a persistent object store in a file, its volume

usage: psalgol COMMAND VOLUME WORDS

commands:
  format VOLUME PAGES       make an empty volume
  run VOLUME [OPTIONS] FILE run the program in FILE over the volume

  psalgol COMMAND --help    the words, options and statuses of a command
  psalgol --help            this text, as does psalgol help
  psalgol --version         the version

Options stand anywhere behind VOLUME, once each, as --turns 5 or --turns=5.
Behind the word -- no word is an option. The name of a file doesn't begin
with -, unless it is - alone; VOLUME never does.

example:
  psalgol format my.vol 64
  psalgol run my.vol hello.ps
";

/// What `psalgol format --help` tells.
pub const FORMAT_HELP: &str = "usage: psalgol format VOLUME PAGES

Makes an empty volume in the file VOLUME.

words:
  PAGES   its pages of 4096 bytes, 32 to 1048576

statuses:
   0  the volume is made
   1  the words are no command
   5  out of memory
   6  the device failed
   8  the output failed
  14  there is a volume already

example:
  psalgol format my.vol 64
";

/// What `psalgol run --help` tells.
pub const RUN_HELP: &str = "usage: psalgol run VOLUME [--area KIB] [--turns N] [--input FILE] FILE

Compiles the program in FILE and runs it over the volume VOLUME.

options:
  --area KIB     the KiB for its objects, 1 to 262144 (default 16384)
  --turns N      the turns that it may take, 0 to 1000000000000
                 (default 100000000)
  --input FILE   the text that it reads (default: an empty one)

statuses:
   0  the program came to its end
   1  the words are no command
   2  the text isn't scanned, parsed or typed: its first fault
   3  the program ended in a trap
   4  the program took all its turns
   5  out of memory
   6  the device failed
   7  a file couldn't be read
   8  the output failed
   9  VOLUME is no volume
  10  the volume is damaged
  11  the area is full
  12  the volume is full
  13  a text is longer than 1048576 bytes

example:
  psalgol run my.vol --turns 1000 hello.ps
";

/// What `psalgol --version` tells.
pub const VERSION: &str = "psalgol 0.1\n";
