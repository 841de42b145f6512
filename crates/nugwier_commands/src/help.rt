//! What `--help` and `--version` print.
ghost use Rattle.nugwier_commands.specs.Help.{help_of};
ghost use Rattle.std.specs.Prelude.{◌≡◌};

use crate::words::Command;

/// The name and the version of the program.
pub const VERSION: &str = "nugwier 0.1.0";

const PROGRAM: &str = "\
nugwier lists what an ELF file holds.

usage: nugwier COMMAND [OPTION..] FILE..

  list        the headers, the tables and the contents of a file
  symbols     the symbols, as nm lists them
  needed      the file's own name, the libraries that it needs, and where they are looked for
  exports     the functions and the data that a file defines for others, with their versions
  build-id    the build id
  plan        what a loader maps into memory, and where
  check       whether a file is sound, or its faults
  harden      how a file is hardened against attacks
  address     the symbols at addresses
  tree        the libraries that a program loads, and the files that are found for them
  bindings    what the symbols of a program and of its libraries bind to
  starts      whether a program starts, or the first reason why it does not

  COMMAND --help    how the command is called, also help COMMAND and, except for list, COMMAND -h
  --json            an object of JSON for each record, one a line, in place of lines for people
  -R, --recursive   of a FILE that is a folder, the ELF files below it
  --color=always, --color=never
                    bold headings and cyan names, or neither; else on a terminal, unless NO_COLOR is set
  -h, --help        this text
  -V, --version     the version of nugwier

--json, -R and --color may stand before the command or after it.

FILE is a path, or - for standard input. Of several files each has a heading. What cannot be read is told on
standard error with the file's name, and the rest is still listed.

With -R regular files below a folder that begin as ELF files do are listed as if they were named, in the order of their
names. Others are passed over, archives too, and links below the folder are not followed.

Exit status: 0 if all was read; 1 if a file, or a part of it, is missing, cannot be read or is wrong; 2 if the words are
wrong.";

const LIST: &str = "\
usage: nugwier list [OPTION..] FILE..

Lists the parts of a file that the options name; without options, all of -a.

  -h           the file header
  -S           the sections
  -g           the section groups, with their sections
  -l           the segments
  -s           the symbols
  -D           the symbols for dynamic linking, with their versions
  -d           the dynamic entries, with the strings that they name
  -r           the relocations, with the names of their symbols
  -n           the notes
  -V           the versions that the file defines, and those that it needs of other files
  -I           how long the chains of hash sections are
  -A           the build attributes of Arm, RISC-V and GNU
  -k           the links to files with debug information
  -a           all of these
  -x SECTION   the bytes of all sections of a name, or of the section of a number
  -p SECTION   the strings of all sections of a name, or of the section of a number
  -W           wide rows: all bytes of a note, and all digits of addresses (or --wide)
  --json       an object of JSON for each record, one a line, in place of lines for people
  -R           of a FILE that is a folder, the ELF files below it

Letters may stand together, as in -hSl, and a section may follow its letter, as in -x28. After -- each word is a file.";

const SYMBOLS: &str = "\
usage: nugwier symbols [OPTION..] FILE..

Lists the symbols of a file, as nm does, in the order of their table; of a stripped file those for dynamic linking: the
value, a letter, and the name. Symbols for dynamic linking have a version, as NAME@VERSION, or NAME@@VERSION of a
default version. Symbols that stand for sections and files are left out.

  -D, --dynamic         only the symbols for dynamic linking
  -g, --extern-only     only those that other files can see
  -u, --undefined-only  only undefined ones
      --defined-only    only defined ones
  -n, --numeric-sort    in the order of their values, undefined ones first
      --size-sort       in the order of their sizes, which stand in the place of values; only defined ones with a size
  -p, --no-sort         in the order of the table
  -S, --print-size      the size after the value, if it is not 0
  -P, --format=posix    as POSIX has it: name, letter, value and size (or -f posix; bsd is the usual format)
  -R, --recursive       of a FILE that is a folder, the ELF files below it
      --json            an object of JSON for each record, one a line, in place of lines for people

Letters may stand together, as in -gu. After -- each word is a file. A letter is in lower case if the symbol is local:

  T  code                     V, v  a weak object, defined or not
  D  data that is written     W, w  another weak symbol, defined or not
  R  data that is only read   U     an undefined symbol
  B  data without bytes       i     a function that is chosen when the file is loaded
  A  an absolute value        u     a unique symbol
  C  a common symbol          N     of a section for debuggers, or a global one of another that is not loaded
  ?  of no section, or of one that is written and not loaded";

const NEEDED: &str = "\
usage: nugwier needed [--json] [-R] FILE..

Lists the file's own name (soname), the libraries that it needs (needed) and where they are looked for (rpath, runpath),
in the order of the dynamic entries.";

const EXPORTS: &str = "\
usage: nugwier exports [--json] [-R] [--functions] FILE..

Lists the functions and the data that a file defines for others, as NAME@VERSION, or NAME@@VERSION of a default version.

  --functions  the functions alone";

const BUILD_ID: &str = "\
usage: nugwier build-id [--json] [-R] FILE..

Prints the build id, which the notes of a file hold, in hexadecimal.";

const PLAN: &str = "\
usage: nugwier plan [--json] [-R] FILE..

Lists what a loader maps: the addresses, the bytes of the file that are there, and the permissions. The rest of the
memory is 0. Tells why, if a file cannot be mapped so.";

const CHECK: &str = "\
usage: nugwier check [--json] [-R] FILE..

Prints FILE: sound if all that the headers of a file declare can be read: the sections and their names, symbols,
strings, relocations, hash tables, notes, dynamic entries, versions and segments. Otherwise tells its faults on standard
error, one a line with the file's name: the first one of each section, of each segment, and of each other part. Files
have no headings.";

const HARDEN: &str = "\
usage: nugwier harden [--json] [-R] [--require LIST] FILE..

Prints how each file is hardened against attacks, in one line:

  kind           executable, pie, static pie, shared object, relocatable or core
  relro          full, partial or none: what is only read after relocations are applied
  now, lazy      whether all symbols are bound when the file is loaded
  stack          nx, or executable
  wx             how many segments are loaded to be both written and executed
  canary         whether functions check their stack
  fortified      how many functions of the C library it calls that check the size of their buffers
  fortifiable    how many it calls that do not and could
  rpath, runpath the folders in which libraries are looked for; unsafe if one is relative or empty
  IBT, SHSTK, LAM_U48, LAM_U57, BTI, PAC, GCS
                 branch protection that all of its code has
  stripped       whether it has no table of symbols but that for dynamic linking

A dash stands for what is not known, and for no path. Files have no headings.

  --require LIST  tells what a file lacks of these, on standard error: pie, relro (full), bindnow, nx, wx (no segment is
                  both), canary, fortify, runpath (no unsafe folder), ibt, shstk, bti, pac, stripped; the words have
                  commas between them. The list may also follow after =, as in --require=nx,pie";

const ADDRESS: &str = "\
usage: nugwier address [--json] [-R] FILE [SECTION:]ADDRESS..

Prints, for each address, NAME+DISTANCE of the last symbol of a function or a variable that starts there or before, and
says so if the address lies past its end. An address is in hexadecimal, with or without 0x. The symbols are those of
list -s or, if the file has none, those for dynamic linking.

With a section, by its name or its number, only the symbols of this section count. In a relocatable file an address is
an offset in a section, so it needs one.";

const TREE: &str = "\
usage: nugwier tree [--json] [-R] [--search FOLDER].. [--root FOLDER] [--no-cache] FILE..

Prints the program, and below it each library that it loads: the name by which it is needed, and the path of the file
that is found, or 'not found'. A library stands below the one that needs it first. Nothing is run.

  --search FOLDER   looks for libraries in this folder, as if LD_LIBRARY_PATH named it
  --root FOLDER     takes all paths below this folder, that of FILE too, as in the image of another system
  --no-cache        takes the folders of /etc/ld.so.conf in place of what /etc/ld.so.cache lists

A folder may also follow after =, as in --root=FOLDER.

Libraries are looked for as the dynamic linker does: in the folders of DT_RPATH of the object that needs them and of its
loaders, those of --search, those of DT_RUNPATH of the object, then at the path that /etc/ld.so.cache has, and in the
usual folders of its machine, such as /lib/x86_64-linux-gnu, /lib64 and /usr/lib. $ORIGIN is the folder of the object's
path. Without a cache the folders of /etc/ld.so.conf take its place. LD_LIBRARY_PATH is not read.";

const BINDINGS: &str = "\
usage: nugwier bindings [--json] [-R] [--search FOLDER].. [--root FOLDER] [--no-cache] FILE..

Prints what the symbols of a program and of the libraries that it loads bind to, as the dynamic linker binds them.
Nothing is run. The libraries are those of tree, with the same options. Under the path of each file there is a line for
each symbol that another file has to define, and for each that is copied into the program:

  NAME@VERSION => PATH          the file that has the symbol
  NAME => PATH: NAME@@VERSION   the same, with the version there, which is another one
  NAME@VERSION => weak          no file has it, and it may be missing
  NAME@VERSION => missing       no file has it
  NAME@VERSION => unknown       a version that decides it cannot be read

If the calls of a function go elsewhere than to its address, the address has a second line, with (address) at its end.
With --json each kind of reference has an object. What is missing or unknown is told on standard error, too.";

const STARTS: &str = "\
usage: nugwier starts [--json] [-R] [--search FOLDER].. [--root FOLDER] [--no-cache] FILE..

Prints FILE: starts, or tells on standard error that the program does not start, and the first reason: what the kernel
refuses of it or of its interpreter, a library that is missing or that the dynamic linker refuses, a symbol that is
missing or unknown. The libraries are those of tree, with the same options, and the symbols those of bindings. Nothing
is run. Files have no headings.

It is not decided, and told so, what a dynamic linker does that is not the one of the GNU C library, nor what a machine
does other than x86-64, i386, AArch64, Arm and 64-bit RISC-V.

All symbols are looked up, as with LD_BIND_NOW: a function that is missing is a reason even if it is never called.
Weak symbols may be missing.

Not looked at are what a program and its libraries do when they start, libraries that they open with dlopen, the
environment, versions that only weak symbols request, permissions, and whether this machine is that of the program. A
library is taken as a program, which lacks what its users define.

  nugwier starts /usr/bin/*                  the programs of this system
  nugwier starts --root image /usr/bin/app   a program of the image of another one
  nugwier starts --search lib bin/app        a program with LD_LIBRARY_PATH=lib";

/// How the program, or one of its commands, is called.
pub fn help(command: Option<Command>) -> &'static str
    ensures { result.now ≡ help_of command }
{
    match command {
        None => PROGRAM,
        Some(Command::List) => LIST,
        Some(Command::Symbols) => SYMBOLS,
        Some(Command::Needed) => NEEDED,
        Some(Command::Exports) => EXPORTS,
        Some(Command::BuildId) => BUILD_ID,
        Some(Command::Plan) => PLAN,
        Some(Command::Check) => CHECK,
        Some(Command::Harden) => HARDEN,
        Some(Command::Address) => ADDRESS,
        Some(Command::Tree) => TREE,
        Some(Command::Bindings) => BINDINGS,
        Some(Command::Starts) => STARTS,
    }
}
