//! Unproved: words and layout. The help texts of `check`, `play`, `chart` and `serve`.

use super::Texts;

/// The texts of `check`.
pub static CHECK: Texts = texts!(
    "Runs scripts and compares what they print with their traces",
    "A PATH is a script, or a folder in which each file NAME.txt is a script. The
file NAME.trace in the same folder has the expected output. The two are
compared byte for byte, except that a carriage return before a line feed is
ignored.

The output has a line for each script, sorted by name in each folder, and a
last line with the counts. If the output of a script differs, the first line
that differs follows, as found and as expected. The line of the script that it
comes from is printed too. If a script is faulty, the places of its faults
follow.

A file NAME.names is a script with names. It has its own expectations, and no
trace. A file NAME.design is a design, and NAME.verdict has the expected output
of 'qdemo explore'.

With --update each trace or verdict that is missing or differs is written.",
    "Example:
  $ qdemo check data
  first-message: as its trace says
  two-servers: differs from its trace at line 4
    found:    4 4 1 message 3 1 -
    expected: 4 4 1 message 3 0 -
    script: line 9: 1 receive 1 1x00
  1 same, 1 differs

Exit status:
  0    all are the same or written
  1    one differs, is faulty or has no trace
  2    a faulty command line
  3    a file can't be read or written, a folder has no script, or memory failed
  141  nobody reads the output"
);

/// The texts of `play`.
pub static PLAY: Texts = texts!(
    "Reads calls and commands, and runs each at once",
    "Each line is a line of a script, as 'qdemo help script' describes them, and
what it adds to the trace is printed at once. Or it is a command:

  state      prints a line for each thread: THREAD state STATE CHANNEL PRIORITY
  undo       removes the last line, and prints it
  save FILE  writes the lines so far, which are a script, into FILE
  help       lists the commands
  quit       ends, as the end of the input does

Lines of a script with names can follow plain ones. From the first line on that
only such a script has, as 'ch = 1 create 0', the lines are a script with
names; save it as NAME.names. With a file NAME.names they are one from the
start. A completion that differs from its expectation is reported. The
expectation of an open call is checked when the call completes, or at the end
of the input. With --names, and on a terminal, results, states and reasons then
have the names.

A faulty line is reported on standard error, and left out. With a FILE its
script runs first. On a terminal there is a prompt. The reasons of failed
calls, the threads that wait for others, and the deadlocks are printed too.
Elsewhere only the results are printed, and at the end the blocked threads. So
the output equals the output of 'qdemo script' for the same lines.

Only 'undo', and the first line with names, run the lines above again.",
    "Example:
  $ qdemo play
  > thread 1 1 10
  > 1 create 0
  1 1 1 channel 1
  > 1 receive 7 -
  2 2 1 fail srch -
    2 receive 7: fail srch: 7 isn't a channel: call 7 isn't made yet; call 1 made channel 1
  > undo
  undo 1 receive 7 -
  > state
  1 state ready 10
  > co = 1 attach 1
  3: co = 1 attach -> connection co
  > m = 1 send co \"hi\" [8]

Exit status:
  0    success
  1    a faulty FILE; or, if the input isn't a terminal, a faulty line or a call
       that differs from its expectation
  2    a faulty command line
  3    reading, writing or memory failed
  141  nobody reads the output"
);

/// The texts of `chart`.
pub static CHART: Texts = texts!(
    "Draws the run of a script or of a design: its threads, messages and replies",
    "Each thread is a vertical line, with its state as a bar. Each message, reply
and pulse is an arrow in the row of the call in which it arrives. The arrow of
a message that nobody has received ends in the air. A circle of threads that
wait for one another is listed below the rows. On a terminal, and with --text,
the drawing is columns of text. Otherwise it is SVG, which a browser shows.
docs/CHARTS.md explains how to read it.

Of a FILE.design, the run that shows its fault is drawn, with the names of the
design. The calls in which the fault shows are red, and the calls that it
doesn't depend on are grey. In text they have the signs ! and ~.

At most 400 calls can be drawn. Draw a part of a longer run with --from and
--to. 'qdemo help script' describes scripts, and 'qdemo help explore' designs.",
    "Example:
  $ qdemo chart first-message.txt -o run.svg

Exit status:
  0    success
  1    a faulty script, too many calls, or a design without a fault
  2    a faulty command line, or the drawing would be written over its script
  3    reading, writing or memory failed
  141  nobody reads the output"
);

/// The texts of `serve`.
pub static SERVE: Texts = texts!(
    "Runs a server and its clients on threads, and prints what they did",
    "In each round a client sends a pulse, and then a message for the echo service
or for the sum service. It waits for the reply and checks it. The servers
receive on one channel.

With --hold the server keeps the first message until it has received a second,
so that two clients are blocked at once.

The output has five lines:

  sent S      the messages that the clients sent
  answered A  the messages that the servers replied to
  pulses P    the pulses that the servers counted
  sum X       the sum of all replies of the sum service
  events E    the kernel calls

With --time five more lines follow. A round trip is from the call of a client's
send until its reply is collected:

  seconds S                    the seconds of the run
  rate R round trips a second  the round trips in a second
  least L ns                   the nanoseconds of the shortest round trip
  median M ns                  at most this for half of the round trips
  ninety-ninth N ns            at most this for 99 of a hundred

With --json the same numbers are printed as one JSON object, in one line.

With --record the calls of the kernel are written into two files before the
lines are printed. NAME.txt is a script that makes the same calls in the same
order, and NAME.trace has their completions. 'qdemo script NAME.txt' prints
NAME.trace byte for byte, in one thread. A script has at most 4,194,304 bytes;
a run that would be longer isn't written.

If standard error is a terminal, a line on it shows the progress of a run that
takes more than half a second. The line is removed at the end, and --quiet
leaves it out.",
    "Example:
  $ qdemo serve --clients 2 --servers 1 --rounds 1
  sent 2
  answered 2
  pulses 2
  sum 8
  events 20

Exit status:
  0  success
  2  a faulty command line, or a run that is too long to record
  3  writing or memory failed
  4  a worker failed"
);
