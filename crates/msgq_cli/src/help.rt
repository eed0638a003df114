//! What stands behind the help of the program and of its commands.

/// After the help of the program.
pub(crate) const ENDING: &str = "\
Without a subcommand, the script of standard input is run on a new file of 352 pages in memory.

Printed on standard output: for each line of a script that has a command its number and the
answer, 'refused NAME' or 'fault N'. A fault that no line met is 'fault N' alone, and standard
error says why.

Exit status:
  0  every line was answered or refused; the file is right; help and version
  1  a fault was printed, or standard output refused a write
  2  the command line, the script or the schedule is wrong, and nothing was run; standard error says
     what is wrong
  3  of send, receive and peek: there is no message, or no room
  4  of send to set: any other refusal, which standard error names

Scripts and schedules: docs/SCRIPTS.md, with examples in examples/. Commands from a shell, send to
set: docs/SHELL.md. Faults: docs/FAULTS.md.";

/// After the help of a command of a shell.
pub(crate) const SHELL_ENDING: &str = "\
KEY is a number of 32 bits, decimal or behind 0x hexadecimal; or @ and the id of a queue.
Owners and modes are those that a caller claims: who may read FILE may read all of it.
Exit status: 0 done; 1 a fault, or standard output refused a write; 2 the command line is wrong;
3 there is no message, or no room; 4 any other refusal, which standard error names.
More: docs/SHELL.md, msgq(1).";

/// After the help of `new`.
pub(crate) const NEW_PRINTS: &str = "\
Prints 'made PAGES'; 'fault 20' where FILE exists or the system refuses to make it.
Exit status 0, 1 where a fault was printed or standard output refused a write, 2 where the
command line is wrong.";

/// After the help of `run`.
pub(crate) const RUN_PRINTS: &str = "\
Each seat makes its lines in a thread of its own, beside the other seats. A script of several seats
whose calls wait for ever makes this wait: end it by a line 'stop' of one more seat, write 'nowait',
or use replay. In a script of one seat the first call that would wait stops the system. On a
terminal, standard error shows how many lines of several seats are answered.
Prints the number and the answer of each line; 'fault 20' alone where SCRIPT can't be read,
'fault N' alone where FILE is not opened, 'fault N' behind the answers where FILE is not closed
well.
Exit status 0, 1 where a fault was printed or standard output refused a write, 2 where the
command line or SCRIPT is wrong: then nothing was run, and standard error says 'script line N'
and what stands there.";

/// After the help of `replay`.
pub(crate) const REPLAY_PRINTS: &str = "\
Runs the lines of the seats beside one another: SCHEDULE says which seat makes the next steps. Behind
it the seats make a step each, in turns, until all lines are answered.
Prints the number and the answer of each line, in the order of SCRIPT; 'fault 20' alone where SCRIPT
or SCHEDULE can't be read, 'fault N' alone where FILE is not opened, 'fault N' behind the answers
where a line is left that no seat can finish, or FILE is not closed well.
With --trace standard error has a line for each event: 'SEAT begins LINE', 'SEAT KIND' for a step,
with its lock or its pages, 'SEAT blocked by SEAT, which holds LOCK', 'SEAT waits',
'SEAT replied LINE', or 'stop'. Nothing else changes by it.
Exit status 0, 1 where a fault was printed or standard output refused a write, 2 where the command
line, SCRIPT or SCHEDULE is wrong: then nothing was run, and standard error says 'script line N' or
'schedule word N'.";

/// After the help of `check`.
pub(crate) const CHECK_PRINTS: &str = "\
Reads all of FILE and tests each page, each record, and that all records are those of one system
of queues.
Prints 'ok QUEUES MESSAGES', or 'fault N' for the first thing that is wrong; standard error says
what and where, and on a terminal or with --verbose how full a file is that is right.
With --map one JSON object is printed in the place of 'ok': the depth of the directory and its
entries, the buckets in the order of their chain, the free pages in that of their list.
Exit status 0, 1 where a fault was printed or standard output refused a write, 2 where the
command line is wrong.";

/// After the help of `stat`.
pub(crate) const STAT_PRINTS: &str = "\
Checks FILE as 'check' does, and prints for each queue, in order of id,
  info ID KEY QNUM CBYTES QBYTES LSPID LRPID STIME RTIME CTIME UID GID CUID CGID MODE
and behind them 'next ID', the id of the next queue; or 'fault N' alone.
With --metrics the same in the text format of Prometheus, with how many messages were sent to each
queue and received from it.
Exit status 0, 1 where a fault was printed or standard output refused a write, 2 where the
command line is wrong.";

/// After the help of `migrate`.
pub(crate) const MIGRATE_PRINTS: &str = "\
Reads OLD, a file of version 1, and makes NEW, a file of today's version of 224 pages more, with the
same queues and messages. Each queue is owned and was made by user 0 of group 0, and its mode is 666.
Prints 'migrated QUEUES MESSAGES'; 'fault 20' where NEW exists or the system refuses to make it; else
'fault N' for the first thing that is wrong with OLD, 42 where it is of another version: then the
NEW that was made is removed.
Exit status 0, 1 where a fault was printed or standard output refused a write, 2 where the
command line is wrong.";

/// After the help of `copy`.
pub(crate) const COPY_PRINTS: &str = "\
Reads OLD and makes NEW, a file of PAGES pages, more or fewer, with the same queues and messages:
serials, moments, owners and the next id are those of OLD, which is not written. OLD is not locked: for
a file that is in use, 'msgq grow FILE PAGES' does it in its place, and loses nothing.
Prints 'copied QUEUES MESSAGES'; 'fault 20' where NEW exists or the system refuses to make it; else
'fault N' for the first thing that is wrong with OLD, or 50 where PAGES are too few for what it
holds: then the NEW that was made is removed.
Exit status 0, 1 where a fault was printed or standard output refused a write, 2 where the
command line is wrong.";

/// After the help of `grow`.
pub(crate) const GROW_PRINTS: &str = "\
Gives FILE PAGES pages, more or fewer, with the same queues and messages, while nobody else changes
it: whoever waits for its turn goes on with the file of the new size. It is made as FILE.unmade, and
takes the name once it is whole; so FILE is at each moment the file of before or the new one. Only
its owner can do that.
Prints 'grown QUEUES MESSAGES'; 'fault 20' where FILE is in use, or the system refuses to make the
new file; else 'fault N' for the first thing that is wrong with FILE, or 50 where PAGES are too few
for what it holds: then it is as it was.
Exit status 0, 1 where a fault was printed or standard output refused a write, 2 where the
command line is wrong.";

/// After the help of `salvage`.
pub(crate) const SALVAGE_PRINTS: &str = "\
Reads OLD, a file that 'check' refuses, and makes NEW, a file of PAGES pages, of each message whose
page has its digest and whose record is right, in queues with their ids, in order of serial. OLD is
not written, and nothing is promised of what is missing in NEW.
Prints 'salvaged QUEUES MESSAGES', and below it 'unread FIRST LAST' for pages of OLD that can't be
read; standard error says what else was left out. 'fault 20' where NEW exists or the system refuses
to make it, 21 or 22 where no page of OLD can be read, 42 where it is of another version, 50 where
PAGES are too few: then the NEW that was made is removed.
Exit status 0, 1 where a fault was printed or standard output refused a write, 2 where the
command line is wrong.";
