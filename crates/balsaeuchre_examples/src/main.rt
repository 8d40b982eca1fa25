//! Examples of the kernel as a library, each in its own file. The program runs all of them, and prints how
//! the calls completed.
#![tactic(auto)]

mod answered;
mod carried;
mod driver;
mod first_message;
mod kept_waiting;
mod one_thread;
mod reply;
mod shutdown;
mod stored;
mod three_callers;
mod three_threads;
mod timeout;
mod two_threads;

use balsaeuchre::{Completion, Trace};
use reply::ClientReply;
use std::io;
use std::test::Fail;

/// Prints a completion: the number of its call, its thread, its result, and the buffer that it returns.
fn show(rt: &impl Print, completion: &Completion) -> io::Result<()> {
    let (call, thread, mark) = (completion.call, completion.thread.0, completion.mark);
    let buffer = completion.buffer.as_slice();
    println!(rt; "  call {call} of thread {thread}: {mark:?} {buffer:?}")
}

/// Prints a reply in the same form.
fn show_reply(rt: &impl Print, reply: &ClientReply) -> io::Result<()> {
    let (call, thread, answer) = (reply.call, reply.thread.0, &reply.answer);
    let (status, copied) = (answer.status, answer.copied);
    let buffer = answer.buffer.as_slice();
    println!(rt;
        "  call {call} of thread {thread}: Replied {{ status: {status}, copied: {copied} }} {buffer:?}"
    )
}

/// Prints the completions of a run under its name.
fn show_all(rt: &impl Print, name: &str, trace: &Trace) -> io::Result<()> {
    println!(rt; "{name}")?;
    for k in 0..trace.len() {
        for completion in trace.completions(k) {
            show(rt, completion)?;
        }
    }
    Ok(())
}

fn main(rt: HostRuntime) -> Result<(), Fail> {
    let alloc = rt.alloc();
    show_all(
        &rt,
        "first message",
        &first_message::first_message(alloc, b"hello", b"world")?,
    )?;
    println!(rt; "one thread")?;
    show_reply(&rt, &one_thread::echo(alloc, b"hello")?)?;
    let trace = two_threads::on_two_threads(&rt, alloc)?;
    let messages = two_threads::MESSAGES.len();
    println!(rt; "two threads\n  {messages} messages, {} calls", trace.len())?;
    let values = [7, -2, 30];
    driver::with_a_driver(&rt, alloc, &values)?;
    println!(rt; "driver\n  {} values", values.len())?;
    let (answer, state) = answered::told_of_an_answer(&rt, alloc)?;
    let bytes = answer.bytes();
    println!(rt; "notified of a reply\n  {bytes:?} {state:?}")?;
    let reply = stored::stored(&rt, alloc, 7)?;
    println!(rt; "stored and found\n  {:?}", reply.bytes())?;
    println!(rt; "kept waiting")?;
    for reply in &kept_waiting::kept_waiting(alloc)? {
        show_reply(&rt, reply)?;
    }
    show_all(&rt, "timeout, cancelled", &timeout::without_flag(alloc)?)?;
    show_all(
        &rt,
        "timeout, with an unblock pulse",
        &timeout::with_flag(alloc)?,
    )?;
    show_all(&rt, "priority carried", &carried::carry_priority(alloc)?)?;
    show_all(&rt, "shut down", &shutdown::shut_down(alloc)?)?;
    Ok(())
}
