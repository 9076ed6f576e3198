ghost use Rattle.std.specs.Prelude.{◌≡◌, drop};
ghost use Rattle.lines.specs.Bytes.{texts};
ghost use Rattle.orders.specs.Fields.{each_on, parent_of};
ghost use Rattle.orders.specs.Lines.{said, Gives, Parents, line, commit_line, name_line, plain_line, find_line, read_line, parent_line, ids_line, describe_line};
ghost use Rattle.std.specs.declared.alloc.AllocError.{AllocError};
ghost use Rattle.orders.specs.declared.parsing.Fault.TheVariants.{Line, Memory};

use crate::describing::DescribeOption;
use crate::expected::{Expected, Malformed};
use crate::order::{Offer, Order};
use crate::parent::Parent;
use crate::readers::{check_from, end_at, fields_from, read_at, read_text, text_at};
use crate::words::Word;
use ancestry::Id;
use std::alloc::{AllocError, AllocFailed, Global};

/// Why a line gives no order.
#[derive(Drop, PartialEq, Eq, Debug)]
pub enum Fault {
    /// The line is malformed.
    Line(Malformed),
    /// There is no memory for what it says.
    Memory(AllocError),
}

impl From<Malformed> for Fault {
    ghost from_gives = { λ m r. r ≡ Line m };

    fn from(malformed: Malformed) -> Fault {
        Fault::Line(malformed)
    }
}

impl<T: Drop> From<AllocFailed<T>> for Fault {
    ghost from_gives = { λ _ r. (e : AllocError) × (r ≡ Memory e) };

    fn from(failed: AllocFailed<T>) -> Fault {
        Fault::Memory(AllocError::from(failed))
    }
}

/// What a line asks for, by its fields; or the first field that is not as expected.
pub fn parse(heap: Global, fields: &[&[u8]]) -> Result<Order, Fault>
    ensures { Gives (line (texts fields.now)) result }
{
    match read_at(fields, 1, Expected::AWord)? {
        Word::Commit => commit(heap, fields),
        Word::Name => name(fields),
        Word::Count => plain(fields, Order::Count),
        Word::Capacity => plain(fields, Order::Capacity),
        Word::Find => find(fields),
        Word::Read => read(fields),
        Word::Parent => parent(fields),
        Word::MergeBase | Word::Octopus => ids(fields),
        Word::Describe => describe(fields),
    }
}

// `commit ID GENERATION DATE [PARENT...]`
fn commit(heap: Global, fields: &[&[u8]]) -> Result<Order, Fault>
    ensures { Gives (commit_line (texts fields.now)) result }
{
    let id = read_at(fields, 2, Expected::AnId)?;
    let generation = read_at(fields, 3, Expected::AGeneration)?;
    let date = read_at(fields, 4, Expected::ADate)?;
    let parents = parents(heap, fields)?;
    Ok(Order::Commit(Offer {
        id,
        generation,
        date,
        parents,
    }))
}

// Each field from the fifth on, as a parent.
fn parents(heap: Global, fields: &[&[u8]]) -> Result<Vec<Parent>, Fault>
    ensures { Parents (each_on parent_of Expected.AParent 5 (drop 4 (texts fields.now))) result }
{
    let mut parents = Vec::new(heap);
    for (index, text) in fields_from(fields, 5).iter().enumerate() {
        parents.push(read_text(text, 5 + index, Expected::AParent)?)?;
    }
    Ok(parents)
}

// `name ID TEXT`
fn name(fields: &[&[u8]]) -> Result<Order, Fault>
    ensures { Gives (name_line (texts fields.now)) result }
{
    let id = read_at(fields, 2, Expected::AnId)?;
    text_at(fields, 3, Expected::AName)?;
    end_at(fields, 4)?;
    Ok(Order::Name(id))
}

// A word alone.
fn plain(fields: &[&[u8]], order: Order) -> Result<Order, Fault>
    ensures { Gives (plain_line (said order) (texts fields.now)) result }
{
    end_at(fields, 2)?;
    Ok(order)
}

// `find ID`
fn find(fields: &[&[u8]]) -> Result<Order, Fault>
    ensures { Gives (find_line (texts fields.now)) result }
{
    let id = read_at(fields, 2, Expected::AnId)?;
    end_at(fields, 3)?;
    Ok(Order::Find(id))
}

// `read PLACE`
fn read(fields: &[&[u8]]) -> Result<Order, Fault>
    ensures { Gives (read_line (texts fields.now)) result }
{
    let place = read_at(fields, 2, Expected::APlace)?;
    end_at(fields, 3)?;
    Ok(Order::Read(place))
}

// `parent PLACE N`
fn parent(fields: &[&[u8]]) -> Result<Order, Fault>
    ensures { Gives (parent_line (texts fields.now)) result }
{
    let place = read_at(fields, 2, Expected::APlace)?;
    let nth = read_at(fields, 3, Expected::ANumber)?;
    end_at(fields, 4)?;
    Ok(Order::Parent(place, nth))
}

// `merge-base FIRST [OTHER...]`, and octopus likewise
fn ids(fields: &[&[u8]]) -> Result<Order, Fault>
    ensures { Gives (ids_line (texts fields.now)) result }
{
    read_at::<Id>(fields, 2, Expected::AnId)?;
    check_from::<Id>(fields, 3, Expected::AnId)?;
    Ok(Order::Later)
}

// `describe START [--candidates=N] [--always] [--first-parent]`
fn describe(fields: &[&[u8]]) -> Result<Order, Fault>
    ensures { Gives (describe_line (texts fields.now)) result }
{
    read_at::<Id>(fields, 2, Expected::AnId)?;
    check_from::<DescribeOption>(fields, 3, Expected::AnOption)?;
    Ok(Order::Later)
}
