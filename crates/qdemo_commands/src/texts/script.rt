//! Unproved: words and layout. The help text of `script`.

use super::Texts;

/// The texts of `script`.
pub static SCRIPT: Texts = texts!(
    "Runs a script and prints the results of its calls",
    "A script has a line for each thread, with its process and its priority. Then it
has a line for each kernel call, with the thread that makes it. Calls are
numbered from 1. A channel, a connection and a receive id have the number of
the call that made them.

  thread THREAD PROCESS PRIORITY
  THREAD create FLAGS
  THREAD attach CHANNEL
  THREAD detach CONNECTION
  THREAD send CONNECTION MESSAGE REPLY_BUFFER
  THREAD receive CHANNEL BUFFER
  THREAD reply RECEIVE_ID STATUS DATA
  THREAD error RECEIVE_ID CODE
  THREAD read RECEIVE_ID OFFSET BUFFER
  THREAD write RECEIVE_ID OFFSET DATA
  THREAD info RECEIVE_ID
  THREAD receivepulse CHANNEL
  THREAD pulse CONNECTION PRIORITY CODE VALUE
  THREAD setprio THREAD PRIORITY
  THREAD unblock THREAD
  THREAD state THREAD
  THREAD destroy CHANNEL
  THREAD shutdown

The operands are:

  THREAD, PROCESS  0 to 255
  PRIORITY         1 to 255; the greater one is received first
  FLAGS            the sum of 1 (FIXED_PRIORITY), 2 (UNBLOCK) and 4 (DISCONNECT)
  an id, OFFSET    below 2^64
  STATUS           a signed number of 64 bits
  VALUE            a signed number of 32 bits
  CODE             of an error, a signed number of 32 bits; of a pulse, -128 to
                   127, but a CODE below 0 fails with inval
  MESSAGE, DATA,   bytes: hexadecimal digits (0aff), up to 4,096 equal bytes
  REPLY_BUFFER,    (16x00), or - for none
  BUFFER

Empty lines, and lines whose first word begins with #, are ignored. A script
has at most 64 threads and 4,194,304 bytes. A line has at most 4,096 bytes.

The output has a line for each call that completes. It has the number of the
call that completed it, its own number, its thread and its result. A Send, a
Receive and a Read also have their buffer. The results are:

  ok
  fail ERROR
  channel ID
  connection ID
  message RECEIVE_ID COPIED
  pulse NUMBER PRIORITY user CODE VALUE
  pulse NUMBER PRIORITY unblock RECEIVE_ID
  pulse NUMBER PRIORITY disconnect PROCESS
  reply STATUS COPIED
  error CODE
  count COPIED
  state STATE CHANNEL PRIORITY
  state ready PRIORITY
  info PROCESS THREAD CONNECTION MSGLEN SRCMSGLEN DSTMSGLEN PRIORITY

An ERROR says why a call failed, or why another call cancelled it:

  srch      The thread, the channel or the message doesn't exist or belongs to
            another process. Or the channel of a blocked call was destroyed, or
            the kernel was shut down.
  badf      The connection doesn't exist or leads nowhere. Or the connection of
            a blocked call was detached.
  inval     An argument is out of range, or there is nothing to destroy or to
            detach.
  again     A limit is reached: 64 channels, 1,024 connections, or 1,024 pulses
            that are queued on a channel.
  intr      An unblock cancelled the call.
  busy      The thread that makes the call is blocked.
  nomemory  There is no memory for the call.
  down      The call comes after a shutdown.

At the end the output has a line for each blocked thread. Its STATE is send,
receive or reply:

  open CALL THREAD STATE CHANNEL

A faulty script isn't run. The first faulty line is reported on standard error,
as 'qdemo: line 2: word count', or for a file as 'qdemo: FILE:2:9: word count'.
With --explain, and on a terminal, up to 20 faulty lines are shown, with the
words that were expected there.

With --explain the reason of each failed call follows the output, on standard
error. Then come the threads that wait for others at the end, and the deadlocks
among them:

  FILE:7: 3 send 1: fail badf: 1 isn't a connection: call 1 made a channel; call 2 made connection 2
  1 waits for 2: message 5 isn't received
  deadlock: 1 waits for 2, 2 waits for 1

A failed call doesn't change the exit status, unless --strict is given.

A file NAME.names is a script with names. With --names-in any other file, or
standard input, is one too. A name before = is bound to the thread, the
channel, the connection or the message that its line makes. A line may give the
expected completion of its call. A line of its own gives the expected state of
a thread:

  server = thread disk 10
  ch = server create UNBLOCK|DISCONNECT  # flags by name, comments at the end
  m = client send co \"get 7\" [8]  # a text, and room for 8 bytes
  server receive ch [16] -> message m \"get 7\"
  client is REPLY-blocked on ch
  server reply m 0 \"seven\" -> ok; m -> reply 0 \"seven\"

Each name stands for its number, and --plain prints the plain script with these
numbers. All faults, and all differences between the run and the expectations,
are reported on standard error, as 'qdemo: FILE:4:27: expected ..'.
docs/SCRIPTS.md describes all forms.

With --names, and on a terminal, the output of a script with names has names. A
line has the line number of the call that completed it, the call and its
result. At the end come the states of the blocked threads, with the lines of
their calls. Explanations and charts always have the names:

  9: m = client send -> reply 0 \"seven\"
  client is SEND-blocked on ch  # line 12",
    "Example:
  input            output
  thread 1 1 10
  thread 2 2 20
  1 create 0       1 1 1 channel 1
  2 attach 1       2 2 2 connection 2
  2 send 2 - -
  1 receive 1 -    4 4 1 message 3 0 -
  1 reply 3 0 -    5 5 1 ok
                   5 3 2 reply 0 0 -

Exit status:
  0    success
  1    a faulty script, a run that differs from the expectations of its script,
       or with --strict a call that failed
  2    a faulty command line
  3    reading, writing or memory failed
  141  nobody reads the output"
);
