//! What a server runs on.
use lost_answer_log::OpenLog;
use std::fs::{File, Files};
use std::io::{Eprint, Input};
use std::random::RandomSource;
use std::sync::Wait;
use std::thread::Threads;
use std::time::Clock;

/// Threads, a clock and random numbers. Each type that has all these is one.
pub trait Machine: Threads + Wait + Clock + RandomSource + Clone + 'static {}

impl<R: Threads + Wait + Clock + RandomSource + Clone + 'static> Machine for R {}

/// What a server runs on, beside the network: a machine with standard input and error, files and memory. Each type that
/// has all these is one.
pub trait System: Machine + Eprint + Input + Files<File = File> + OpenLog + AllocGlobal {}

impl<R: Machine + Eprint + Input + Files<File = File> + OpenLog + AllocGlobal> System for R {}
