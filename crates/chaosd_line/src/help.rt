//! The texts of help. clap adds them to a column and wraps no line, so each text has its own line
//! ends: no line of any help is wider than 80 columns.

/// The program's version, and where the program's stamp is: a program can't contain the sum of its
/// own sources.
pub(crate) const VERSION: &str = "0.2.0
chaosd.stamp, beside the program or in ../share/chaosd, says how it was built.
Without that file, assume that the program is not proved.";

/// The first line of the program's help.
pub(crate) const ABOUT: &str = "A Chaosnet host, after MIT AI Memo 628";

/// The end of the program's help.
pub(crate) const STATUSES: &str = "\
Exit status:
  0  done, or help or the version was shown
  1  reading, writing, a socket, the clock or the store failed
  2  a mistake in the command line or in the script
  3  something was refused, or no reply came
  4  out of memory";

/// Help of `show`.
pub(crate) const SHOW: &str = "Decode datagrams, given as lines of hex on standard input";

/// Help of `show --file`.
pub(crate) const SHOW_FILE: &str = "\
Also print the data as text, and decode the commands and replies
of FILE";

/// Help of `show --chudp`.
pub(crate) const SHOW_CHUDP: &str = "\
Decode datagrams of CHUDP, the framing of cbridge and other
Chaosnet programs";

/// Help of `lab`.
pub(crate) const LAB: &str = "Simulate both ends of a connection, from a script on standard input";

/// Help of `filelab`.
pub(crate) const FILELAB: &str =
    "Simulate a FILE client and server, from a script on standard input";

/// Help of `loop`.
pub(crate) const LOOP: &str = "\
Run a FILE script from standard input between two hosts in this
process, and print the replies";

/// Help of `serve`.
pub(crate) const SERVE: &str = "Serve the files of a folder to other hosts";

/// Help of `ask`.
pub(crate) const ASK: &str = "\
Send a FILE script from standard input to another host, and print
the replies";

/// Help of `get`.
pub(crate) const GET: &str = "Copy files from another host";

/// Help of `put`.
pub(crate) const PUT: &str = "Copy local files to another host";

/// Help of `delete`.
pub(crate) const DELETE: &str = "Delete files on another host";

/// Help of `rename`.
pub(crate) const RENAME: &str = "Rename a file on another host";

/// Help of `--login`.
pub(crate) const LOGIN: &str = "\
Log in as the user NAME:
1 to 16 letters and digits";

/// Help of `--window` of the commands that call a server.
pub(crate) const WINDOW: &str = "\
Keep up to N commands in flight, 1 to 64; the
server's window may allow fewer";

/// Help of `serve --window`.
pub(crate) const SERVE_WINDOW: &str = "\
Give each connection windows of N packets, 1 to 64:
a client may have N commands in flight";

/// Help of `serve --quiet`.
pub(crate) const SERVE_QUIET: &str = "Log only errors, as --log quiet does";

/// Help of `--timeout` of the commands that call a server.
pub(crate) const TIMEOUT: &str = "\
Wait up to SECONDS for each reply, 1 to 3600
(otherwise 1000 turns and at least 10 seconds)";

/// Help of `ask --timeout`.
pub(crate) const ASK_TIMEOUT: &str = "\
Wait up to SECONDS for each reply, 1 to 3600
(otherwise 1000 turns, which take 10 to 17 seconds)";

/// Help of `--retransmit`.
pub(crate) const RETRANSMIT: &str = "\
Retransmit unacknowledged packets after MS
milliseconds, 20 to 60000 [default: measured]";

/// Help of `--any-source`.
pub(crate) const ANY_SOURCE: &str = "\
Accept datagrams from any UDP address, for a server
with several interfaces";

/// Help of `ask --strict`.
pub(crate) const STRICT: &str = "End the run at the first ERROR reply, with status 3";

/// Help of `serve --log`.
pub(crate) const LOG: &str = "\
Log quiet (errors only), normal (also connections,
changed files and failed requests) or all (also files
that are read)";

/// Help of `serve --log-time`.
pub(crate) const LOG_TIME: &str = "Begin each log line with the time, in UTC";

/// Help of `serve --only-peers`.
pub(crate) const ONLY_PEERS: &str = "Accept datagrams only from the UDP address of a PEER";

/// Help of `serve --read-only`.
pub(crate) const READ_ONLY: &str = "\
Refuse all changes: a client that writes, renames or
deletes a file gets the error STF";

/// Help of `--text`.
pub(crate) const TEXT: &str = "\
Translate a text between ASCII and the Lisp machine's
character set: newline, tab, backspace and page are
8D, 89, 88 and 8C at the server. A file that would
not translate back is refused";

/// Help of `--quiet` of the commands that call a server.
pub(crate) const QUIET: &str = "Report only what failed";

/// Help of `--verbose` of `ask`, `delete` and `rename`.
pub(crate) const VERBOSE: &str = "\
Report more, even if standard error is not a terminal";

/// Help of `--verbose` of a copy.
pub(crate) const COPY_VERBOSE: &str = "\
Print a line with the size and the SHA-256 of each
file, even if standard error is not a terminal";

/// Help of `get --output`.
pub(crate) const OUTPUT: &str = "\
Write the file to LOCAL, where - is standard output;
a LOCAL that ends with / is a folder for all files";

/// Help of `put --as`.
pub(crate) const AS: &str = "Put the one local file under the name PATH";

/// Help of `put --rename`.
pub(crate) const RENAMING: &str = "\
Rename a file whose name is no PATH: write _ for each
byte that a PATH can't have, and for a leading dot";

/// Help of `serve --turns`.
pub(crate) const TURNS: &str = "\
End the server after N turns, 0 to 1000000000; an idle
turn takes some 10 ms";

/// Help of `--carriage`.
pub(crate) const CARRIAGE: &str = "\
Send datagrams of version N: 1 carries one packet,
2 carries several";

/// Help of `--chudp`.
pub(crate) const CHUDP: &str = "\
Use CHUDP, the framing of cbridge and other Chaosnet
programs; not with --carriage 2";

/// Help of `--bridge`.
pub(crate) const BRIDGE: &str = "\
Name ADDRESS, the bridge's own Chaosnet address, as
the next hop of packets that go through the bridge;
needs --chudp";

/// Help of `--key`.
pub(crate) const KEY: &str = "\
Seal datagrams with the key in FILE, which the server
has too: 64 hexadecimal digits, in a file that nobody
else can read; not with --chudp";

/// Help of `serve --key`.
pub(crate) const SERVE_KEY: &str = "\
Seal the datagrams of each PEER with the key in FILE:
64 hexadecimal digits, in a file that nobody else can
read; not with --chudp, and not with a hosts table";

/// Help of `--contact`.
pub(crate) const CONTACT: &str = "\
Ask for the contact NAME: 1 to 64 printable ASCII
characters without a space";

/// Help of `--hosts`.
pub(crate) const HOSTS: &str = "\
Read addresses from the hosts table FILE; not in a
line that begins with ADDRESS";

/// Help of `put --recursive`, which only says that it can't be.
pub(crate) const RECURSIVE: &str = "Put the files of folders: FILE has none";

/// The usage of `serve`.
pub(crate) const SERVE_USAGE: &str = "\
chaosd serve [OPTIONS] FOLDER
       chaosd serve [OPTIONS] ADDRESS UDP FOLDER [PEER]...";

/// The usage of `ask`.
pub(crate) const ASK_USAGE: &str = "\
chaosd ask [OPTIONS] HOST
       chaosd ask [OPTIONS] ADDRESS UDP TO [PEER]...";

/// The usage of `get`.
pub(crate) const GET_USAGE: &str = "\
chaosd get [OPTIONS] HOST:PATH... [LOCAL]
       chaosd get [OPTIONS] ADDRESS UDP SERVER PATH...";

/// The usage of `put`.
pub(crate) const PUT_USAGE: &str = "\
chaosd put [OPTIONS] LOCAL... HOST:
       chaosd put [OPTIONS] ADDRESS UDP SERVER LOCAL...";

/// The usage of `delete`.
pub(crate) const DELETE_USAGE: &str = "\
chaosd delete [OPTIONS] HOST:PATH...
       chaosd delete [OPTIONS] ADDRESS UDP SERVER PATH...";

/// The usage of `rename`.
pub(crate) const RENAME_USAGE: &str = "\
chaosd rename [OPTIONS] HOST:OLD NEW
       chaosd rename [OPTIONS] ADDRESS UDP SERVER OLD NEW";

/// The rule by which the two forms of a line differ, and the words of the long form that all
/// commands have which use the network.
macro_rules! words {
    ($short:literal, $long:literal) => {
        concat!(
            $short,
            "
If the first word has digits alone, it is ADDRESS:
ADDRESS  Chaosnet address of this host: 1 to 6 octal digits, from 1
         to 177777
UDP      UDP address to receive at: a.b.c.d:port in decimal, with a
         port from 1 to 65535",
            $long
        )
    };
}

/// Help of the words of `serve`.
pub(crate) const SERVE_WORDS: &str = words!(
    "\
FOLDER   Folder to serve. The hosts table has the addresses of this
         host and of its peers",
    "
FOLDER   Folder to serve
PEER     Another host, as ADDRESS=UDP in the forms above: at most
         32, each Chaosnet address once. *=UDP is a bridge to all
         other hosts. ADDRESS=* is a host that is answered where
         its last good datagram came from"
);

/// Help of the words of `ask`.
pub(crate) const ASK_WORDS: &str = words!(
    "\
HOST     Host to ask, by its name in the hosts table",
    "
TO       Chaosnet address of the host to ask, in the form of
         ADDRESS
PEER     Another host, as ADDRESS=UDP in the forms above: at most
         32, each Chaosnet address once. *=UDP is a bridge to all
         other hosts"
);

/// Help of the words of `get`.
pub(crate) const GET_WORDS: &str = words!(
    "\
HOST     Host to call, by its name in the hosts table
PATH     File on the server, of 1 to 64 letters, digits, dots,
         hyphens and underscores, without a leading dot
LOCAL    Where the files go, as --output says; . is this folder",
    "
SERVER   Host to call, as ADDRESS=UDP in the forms above"
);

/// Help of the words of `put`.
pub(crate) const PUT_WORDS: &str = words!(
    "\
LOCAL    Local file, put under its last name if that is a PATH:
         1 to 64 letters, digits, dots, hyphens and underscores,
         without a leading dot. Other files are skipped and
         reported. A LOCAL of - is standard input, and needs --as
HOST     Host to call, by its name in the hosts table",
    "
SERVER   Host to call, as ADDRESS=UDP in the forms above"
);

/// Help of the words of `delete`.
pub(crate) const DELETE_WORDS: &str = words!(
    "\
HOST     Host to call, by its name in the hosts table
PATH     File on the server, of 1 to 64 letters, digits, dots,
         hyphens and underscores, without a leading dot",
    "
SERVER   Host to call, as ADDRESS=UDP in the forms above"
);

/// Help of the words of `rename`.
pub(crate) const RENAME_WORDS: &str = words!(
    "\
HOST     Host to call, by its name in the hosts table
OLD      File on the server, of 1 to 64 letters, digits, dots,
         hyphens and underscores, without a leading dot
NEW      New name of the file, in the same form, which no file
         has yet",
    "
SERVER   Host to call, as ADDRESS=UDP in the forms above"
);

/// The end of the help of `serve`.
pub(crate) const SERVE_EXAMPLE: &str = "\
Examples:
  chaosd serve files

  Serve the folder `files` to the hosts of the hosts table.

  chaosd serve 401 127.0.0.1:9001 files 402=127.0.0.1:9002

  Host 401 serves the files of the folder `files`, and knows host 402.

  chaosd serve --chudp --bridge 3040 401 0.0.0.0:42042 files '*=192.0.2.1:42042'

  Host 401 serves the same files through the bridge 3040, at 192.0.2.1.";

/// The end of the help of `ask`.
pub(crate) const ASK_EXAMPLE: &str = "\
Examples:
  chaosd ask lispm < script

  Send the commands of `script` to the host lispm of the hosts table.

  chaosd ask 402 127.0.0.1:9002 401 401=127.0.0.1:9001 < script

  Host 402 sends the commands of `script` to host 401.";

/// The end of the help of `get`.
pub(crate) const GET_EXAMPLE: &str = "\
Examples:
  chaosd get lispm:A.LISP lispm:B.LISP src/

  Copy two files of the host lispm into the folder src.

  chaosd get 402 127.0.0.1:9002 401=127.0.0.1:9001 A.LISP B.LISP

  Host 402 copies two files of host 401 into this folder.";

/// The end of the help of `put`.
pub(crate) const PUT_EXAMPLE: &str = "\
Examples:
  chaosd put src/A.LISP src/B.LISP lispm:

  Copy two files to the host lispm, as A.LISP and B.LISP.

  chaosd put 402 127.0.0.1:9002 401=127.0.0.1:9001 src/A.LISP src/B.LISP

  Host 402 copies two files to host 401, as A.LISP and B.LISP.

A local file whose name has digits alone is written as ./402 if it is the first.";

/// The end of the help of `delete`.
pub(crate) const DELETE_EXAMPLE: &str = "\
Examples:
  chaosd delete lispm:A.LISP lispm:B.LISP

  Delete two files on the host lispm.

  chaosd delete 402 127.0.0.1:9002 401=127.0.0.1:9001 A.LISP B.LISP

  Host 402 deletes two files on host 401.";

/// The end of the help of `rename`.
pub(crate) const RENAME_EXAMPLE: &str = "\
Examples:
  chaosd rename lispm:A.LISP B.LISP

  Rename A.LISP on the host lispm to B.LISP.

  chaosd rename 402 127.0.0.1:9002 401=127.0.0.1:9001 A.LISP B.LISP

  Host 402 renames A.LISP on host 401 to B.LISP.";
