// Records run on an index of a register in the delay kind and its book.
ghost use Rattle.callfile.specs.Running.{Ran, Read, Told, start_fault, starting};
ghost use Rattle.index.specs.Books.{state};
ghost use Rattle.index.specs.Calls.{Follows};
ghost use Rattle.register.specs.Memories.{register_meaning};
ghost use Rattle.std.specs.Prelude.{◌≡◌};

use crate::call::Call;
use crate::fault::ReaderFault;
use crate::line::{Answer, Line};
use crate::reading::read_call;
use index::book::Book;
use index::book::making::BookSizes;
use index::calls::{change, name, unname};
use index::fault::IndexFault;
use network::changes::RegisterChange;
use network::fault::NetworkFault;
use network::sizes::check_size;
use register::Register;
use register::making::RegisterSizes;
use weight::delay::Delay;

// The sizes of the indexes that a call file makes; sites are at most so many.
pub const MOST_SITES: u32 = 256;

pub const LINK_PLACES: u32 = 1024;

pub const HUB_PLACES: u32 = 8;

pub const ENTRY_PLACES: u32 = 2048;

// Makes a new index of so many sites in the place of the running one; a refusal leaves that as it was.
fn start(
    register: &mut Register<'_, Delay>,
    book: &mut Book<'_, Delay>,
    sites: u32,
) -> Result<u32, IndexFault>
    ensures { Follows (starting (start_fault sites (register_meaning register.old) (state book.old)) sites (register_meaning register.old) (state book.old)) (register_meaning register.old, state book.old) result (register_meaning register.new, state book.new) }
{
    check_size::<NetworkFault>(sites, MOST_SITES)?;
    let sizes = RegisterSizes {
        sites,
        places: LINK_PLACES,
    };
    register.check(sizes)?;
    book.renew(BookSizes {
        sites,
        hub_places: HUB_PLACES,
        entry_places: ENTRY_PLACES,
    })?;
    register.renew(sizes)?;
    Ok(sites)
}

// Runs one call on a register and its book, wherever their user holds them.
pub fn run(
    register: &mut Register<'_, Delay>,
    book: &mut Book<'_, Delay>,
    call: Call,
) -> Result<Answer, IndexFault>
    ensures { Ran call (register_meaning register.old) (state book.old) result (register_meaning register.new) (state book.new) }
{
    let number = match call {
        Call::New(sites) => start(register, book, sites),
        Call::Link(one, other, weight) => change(
            register,
            book,
            RegisterChange::Link(one, other, weight),
        ),
        Call::Strike(number) => change(register, book, RegisterChange::Strike(number)),
        Call::Reweigh(number, weight) => change(
            register,
            book,
            RegisterChange::Reweigh(number, weight),
        ),
        Call::Name(site) => name(register, book, site),
        Call::Unname(site) => unname(register, book, site),
    }?;
    Ok(Answer::from(number))
}

// Runs the call that a record is.
fn run_bytes(
    register: &mut Register<'_, Delay>,
    book: &mut Book<'_, Delay>,
    bytes: &[u8; 16],
) -> Result<Answer, ReaderFault>
    ensures { Read bytes.now (register_meaning register.old) (state book.old) result (register_meaning register.new) (state book.new) }
{
    let call = read_call(bytes)?;
    Ok(run(register, book, call)?)
}

// Runs one record on a register and its book, and answers the line that it prints.
pub fn run_record(
    register: &mut Register<'_, Delay>,
    book: &mut Book<'_, Delay>,
    number: u64,
    bytes: &[u8; 16],
) -> Line
    ensures { Told number bytes.now (register_meaning register.old) (state book.old) result (register_meaning register.new) (state book.new) }
{
    let result = run_bytes(register, book, bytes);
    Line { number, result }
}

// The index that a call file runs on: a register in the delay kind, and its book.
#[derive(Drop)]
pub struct Index<'a> {
    pub register: Register<'a, Delay>,
    pub book: Book<'a, Delay>,
}

impl Index<'_> {
    // Runs one call.
    pub fn run(&mut self, call: Call) -> Result<Answer, IndexFault>
        ensures { Ran call (register_meaning self.old.register) (state self.old.book) result (register_meaning self.new.register) (state self.new.book) }
    {
        run(&mut self.register, &mut self.book, call)
    }

    // Runs one record, and answers the line that it prints.
    pub fn run_record(&mut self, number: u64, bytes: &[u8; 16]) -> Line
        ensures { Told number bytes.now (register_meaning self.old.register) (state self.old.book) result (register_meaning self.new.register) (state self.new.book) }
    {
        run_record(&mut self.register, &mut self.book, number, bytes)
    }
}
