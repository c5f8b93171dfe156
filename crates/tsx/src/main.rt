//! `tsx`: the proxy's commands over files, standard streams and sockets.
#![tactic(auto)]

mod command_line;
mod count;
mod fault;
mod file_shelf;
mod opener;
mod writer_sink;

use command_line::{program_words, run_words};
use file_shelf::FileShelf;
use opener::SystemOpener;
use std::process::ExitCode;
use ts_link::OpenGate;
use ts_net::MonotonicClock;
use ts_socket_net::SocketNet;
use writer_sink::WriterSink;

fn main(rt: HostRuntime) -> ExitCode {
    let words = program_words(&rt);
    let clock = MonotonicClock::new(&rt);
    let mut shelf = FileShelf::new(SystemOpener::new(&rt));
    let mut net = SocketNet::new(&rt, rt.alloc(), &clock);
    let mut out = WriterSink::new(rt.stdout());
    let mut err = WriterSink::new(rt.stderr());
    let status = run_words(
        &rt,
        rt.alloc(),
        words,
        &mut shelf,
        &mut net,
        &mut out,
        &mut err,
        &clock,
        &OpenGate::make(),
    );
    net.finish();
    ExitCode::from(status)
}
