//! The standard input of a trial.
use crate::plan::{Plan, SystemCall};
use std::fs::File;
use std::io::{self, BufRead, BufReader, Read};
use std::rc::Rc;

/// The standard input of a trial, which is a file. It is empty if that file can't be opened.
#[derive(Drop)]
pub struct TrialReader {
    opened: Option<Opened>,
}

#[derive(Drop)]
pub(crate) struct Opened {
    pub(crate) file: BufReader<File>,
    pub(crate) plan: Rc<Plan>,
}

impl TrialReader {
    pub(crate) fn new(opened: Option<Opened>) -> TrialReader {
        TrialReader { opened }
    }
}

impl Read for TrialReader {
    fn read(&mut self, buf: &mut [u8]) -> io::Result<usize> {
        let Some(input) = &mut self.opened else {
            return Ok(0);
        };
        let most = input.plan.pass_moving(SystemCall::Read, buf.len())?;
        input.file.read(&mut buf[..most])
    }
}

impl BufRead for TrialReader {
    fn fill_buf(&mut self) -> io::Result<&[u8]> {
        match &mut self.opened {
            Some(input) => input.file.fill_buf(),
            None => Ok(&[]),
        }
    }

    fn consume(&mut self, amount: usize) {
        if let Some(input) = &mut self.opened {
            input.file.consume(amount);
        }
    }
}
