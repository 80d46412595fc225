//! A program's own name as the first of its words.
//!
//! The system tells the first as a path that may hold anything, also what is no text; none of it says how to run.

ghost use Rattle.std.specs.Prelude.{◌≡◌, ◌++◌, ◌≤◌, ◌↔◌, length, drop, IfOk, IsOk};

use std::env::FillError;
use std::rt::Env;

/// A runtime that tells this name as its program's, and all else as `rt` does.
pub struct Named<'a, R> {
    rt: &'a R,
    name: &'a str,
}

impl<'a, R> Drop for Named<'a, R> {
    fn drop(self) {
        let Named { rt: _, name: _ } = self;
    }
}

impl<'a, R> Named<'a, R> {
    /// The runtime with this name for its program.
    pub fn new(rt: &'a R, name: &'a str) -> Named<'a, R>
        ensures runtime { result.rt ≡ rt.entry }
        ensures name { result.name ≡ name.entry }
    {
        Named { rt, name }
    }
}

fn put(bytes: &[u8], buf: &mut [u8]) -> Result<usize, FillError>
    ensures room { IsOk result ↔ (length bytes.now ≤ length buf.old) }
    ensures bound { IfOk result (λ n. n ≤ length buf.new) }
    ensures put { IfOk result (λ n. (n ≡ length bytes.now) × (buf.new ≡ bytes.now ++ drop n buf.old)) }
{
    let count = bytes.len();
    if count > buf.len() {
        return Err(FillError::TooLong);
    }
    buf[..count].copy_from_slice(bytes);
    Ok(count)
}

impl<'a, R: Env> Env for Named<'a, R> {
    fn arg(&self, i: usize, buf: &mut [u8]) -> Result<usize, FillError> {
        if i == 0 {
            return put(self.name.as_bytes(), buf);
        }
        self.rt.arg(i, buf)
    }

    fn var(&self, name: &str, buf: &mut [u8]) -> Result<usize, FillError> {
        self.rt.var(name, buf)
    }

    fn var_at(&self, i: usize, buf: &mut [u8]) -> Result<usize, FillError> {
        self.rt.var_at(i, buf)
    }
}
