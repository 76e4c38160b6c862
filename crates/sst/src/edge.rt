//! The outside: files, and what writes.

ghost use Rattle.std.specs.Prelude.{None, ◌≤◌, IfSome, length};

use ss_edge::{Failed, Shelf, Sink};
use std::alloc::Global;
use std::cell::{Cell, RefCell};
use std::fs::File;
use std::io::{self, BufWriter, Write};
use std::os::unix::fs::FileExt;
use std::rt::Files;

/// How many bytes a writer holds back at most.
const ROOM: usize = 65_536;

/// A writer that holds back what it is given until there is much of it. What is to be seen behind it, such as a file or a
/// message, flushes it first. Once a write fails, what was held back is lost: all that comes later fails, too.
#[derive(Drop)]
pub struct Held<W: Write + Drop> {
    to: RefCell<BufWriter<W, Global>>,
    lost: Cell<bool>,
}

impl<W: Write + Drop> Held<W> {
    pub fn new(alloc: Global, to: W) -> io::Result<Self> {
        let to = BufWriter::with_capacity(alloc, ROOM, to)?;
        Ok(Held {
            to: RefCell::new(to),
            lost: Cell::new(false),
        })
    }

    /// Writes what is held back.
    pub fn flush(&self) -> Result<(), Failed> {
        if !self.lost.get()
            && let Ok(mut to) = self.to.try_borrow_mut()
            && to.flush().is_ok()
        {
            return Ok(());
        }
        self.lost.set(true);
        Err(Failed)
    }

    /// Takes the first bytes of a piece, and answers how many.
    fn take(&self, piece: &[u8]) -> Option<usize>
        ensures { IfSome result (λ n. n ≤ length piece.now) }
    {
        if !self.lost.get()
            && let Ok(mut to) = self.to.try_borrow_mut()
            && let Ok(n) = to.write(piece)
        {
            return Some(n);
        }
        self.lost.set(true);
        None
    }
}

/// Files as a shelf, which tells nothing of what they hold. What was written before a put goes out before it, and no file is
/// put behind output that was lost.
#[derive(Drop)]
pub struct FileShelf<'a, R: Files, W: Write + Drop> {
    rt: &'a R,
    before: &'a Held<W>,
    faults: u64,
}

impl<'a, R: Files, W: Write + Drop> FileShelf<'a, R, W> {
    pub fn new(rt: &'a R, before: &'a Held<W>) -> Self {
        FileShelf {
            rt,
            before,
            faults: 0,
        }
    }
}

impl<R: Files<File = File>, W: Write + Drop> Shelf for FileShelf<'_, R, W> {
    ghost held = { λ s. None };

    ghost read_faults = { λ s name. s.faults };

    ghost put_faults = { λ s name. s.faults };

    fn read_at(&mut self, name: &str, at: u64, buf: &mut [u8]) -> Result<usize, Failed> {
        if let Ok(file) = File::open(self.rt, name)
            && let Ok(n) = file.read_at(buf, at)
        {
            return Ok(n);
        }
        self.faults = self.faults.saturating_add(1);
        Err(Failed)
    }

    fn put(&mut self, name: &str, bytes: &[u8]) -> Result<(), Failed> {
        if self.before.flush().is_ok() && std::fs::write(self.rt, name, bytes).is_ok() {
            return Ok(());
        }
        self.faults = self.faults.saturating_add(1);
        Err(Failed)
    }
}

/// A writer that holds back as a sink, which tells nothing of what it took.
#[derive(Drop)]
pub struct HeldSink<'a, W: Write + Drop> {
    to: &'a Held<W>,
    faults: u64,
}

impl<'a, W: Write + Drop> HeldSink<'a, W> {
    pub fn new(to: &'a Held<W>) -> Self {
        HeldSink { to, faults: 0 }
    }
}

impl<W: Write + Drop> Sink for HeldSink<'_, W> {
    ghost taken = { λ s. None };

    ghost faults = { λ s. s.faults };

    fn write(&mut self, piece: &[u8]) -> Result<usize, Failed> {
        if let Some(n) = self.to.take(piece)
            && (n > 0 || piece.is_empty())
        {
            return Ok(n);
        }
        self.faults = self.faults.saturating_add(1);
        Err(Failed)
    }
}

/// A writer as a sink, which tells nothing of what it took. What another writer holds back, if there is one, goes out before
/// its pieces. Where that was lost, its pieces go nowhere: that loss is all there is to tell, and `main` tells it.
#[derive(Drop)]
pub struct TiedSink<'a, E: Write, W: Write + Drop> {
    to: E,
    before: Option<&'a Held<W>>,
    faults: u64,
}

impl<'a, E: Write, W: Write + Drop> TiedSink<'a, E, W> {
    pub fn new(to: E, before: Option<&'a Held<W>>) -> Self {
        TiedSink {
            to,
            before,
            faults: 0,
        }
    }

    /// From now on no writer's bytes go out before its pieces.
    pub fn untie(&mut self) {
        self.before = None;
    }
}

impl<E: Write, W: Write + Drop> Sink for TiedSink<'_, E, W> {
    ghost taken = { λ s. None };

    ghost faults = { λ s. s.faults };

    fn write(&mut self, piece: &[u8]) -> Result<usize, Failed> {
        if let Some(before) = self.before
            && before.flush().is_err()
        {
            return Ok(piece.len());
        }
        if let Ok(n) = self.to.write(piece)
            && (n > 0 || piece.is_empty())
        {
            return Ok(n);
        }
        self.faults = self.faults.saturating_add(1);
        Err(Failed)
    }
}

#[cfg(test)]
mod tests {
    use super::*;
    use std::test::Fail;

    #[test]
    fn files(rt: HostRuntime) -> Result<(), Fail> {
        let held = Held::new(rt.alloc(), std::io::writer(&rt))?;
        let mut shelf = FileShelf::new(&rt, &held);
        let mut piece = [0u8; 2];
        assert_eq!(rt; shelf.put("edge.txt", b"abc".as_slice()), Ok(()));
        assert_eq!(rt; shelf.read_at("edge.txt", 1, &mut piece), Ok(2));
        assert_eq!(rt; piece.as_slice(), b"bc".as_slice());
        assert_eq!(rt; shelf.read_at("edge.txt", 3, &mut piece), Ok(0));
        assert_eq!(rt; shelf.read_at("none.txt", 0, &mut piece), Err(Failed));
        Ok(())
    }

    #[test]
    fn standard_output(rt: HostRuntime) -> Result<(), Fail> {
        let held = Held::new(rt.alloc(), std::io::writer(&rt))?;
        let mut out = HeldSink::new(&held);
        assert_eq!(rt; out.write(b"a line\n".as_slice()), Ok(7));
        assert_eq!(rt; held.flush(), Ok(()));
        let mut err = TiedSink::new(rt.stderr(), Some(&held));
        assert_eq!(rt; err.write(b"".as_slice()), Ok(0));
        Ok(())
    }
}
