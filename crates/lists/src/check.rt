// Checking one rule: 7 to 11 of document 01's numbers, 15 and 16 of document 02's.
//   list_start(), list_more(..), list_end(..) == what checking a list finds, element by element
//   lowest_fault(d, c, bad) == the lowest fault of a rule, by what was found of its lists and its command
ghost use Rattle.std.specs.Prelude.{◌≡◌};
ghost use Rattle.lists.specs.ListCode.{is_reserved, is_fault, is_missing, is_deep, naming_fault_of, list_start, list_more, list_end, lowest_of, bad_command_after};

use elements::element::ElementFault;
use lines::{command, rule};
use section::Fault;

// What checking a list finds: no element, EXCEPT misplaced, an element of reserved start, one that is not sound, one that names a table
// that is missing, that leads too deep.
#[derive(Clone, Copy)]
pub struct ListCheck {
    pub empty: bool,
    pub misplaced: bool,
    pub reserved: bool,
    pub unsound: bool,
    pub missing: bool,
    pub deep: bool,
}

// Whether f is a reserved start.
fn is_reserved(f: Result<(), ElementFault>) -> bool
    ensures { result ≡ is_reserved f }
{
    match f {
        Ok(()) => false,
        Err(ElementFault::Reserved) => true,
        Err(ElementFault::Unknown) => false,
        Err(ElementFault::Missing) => false,
        Err(ElementFault::Deep) => false,
    }
}

// Whether f is a fault of the element itself.
fn is_fault(f: Result<(), ElementFault>) -> bool
    ensures { result ≡ is_fault f }
{
    match f {
        Ok(()) => false,
        Err(ElementFault::Reserved) => true,
        Err(ElementFault::Unknown) => true,
        Err(ElementFault::Missing) => false,
        Err(ElementFault::Deep) => false,
    }
}

// Whether f is a table that is missing.
fn is_missing(f: Result<(), ElementFault>) -> bool
    ensures { result ≡ is_missing f }
{
    match f {
        Ok(()) => false,
        Err(ElementFault::Reserved) => false,
        Err(ElementFault::Unknown) => false,
        Err(ElementFault::Missing) => true,
        Err(ElementFault::Deep) => false,
    }
}

// Whether f is a table that leads too deep.
fn is_deep(f: Result<(), ElementFault>) -> bool
    ensures { result ≡ is_deep f }
{
    match f {
        Ok(()) => false,
        Err(ElementFault::Reserved) => false,
        Err(ElementFault::Unknown) => false,
        Err(ElementFault::Missing) => false,
        Err(ElementFault::Deep) => true,
    }
}

// What is found before the first element.
pub fn list_start() -> ListCheck
    ensures { result ≡ list_start }
{
    ListCheck {
        empty: true,
        misplaced: false,
        reserved: false,
        unsound: false,
        missing: false,
        deep: false,
    }
}

// c, one faulty element further; after: whether an element stands directly before it, x: whether it is EXCEPT.
fn list_fault(c: ListCheck, after: bool, x: bool, f: Result<(), ElementFault>) -> ListCheck
    ensures { result ≡ list_more c after x f }
{
    ListCheck {
        empty: c.empty & x,
        misplaced: c.misplaced | (x & !after),
        reserved: c.reserved | is_reserved(f),
        unsound: c.unsound | is_fault(f),
        missing: c.missing | is_missing(f),
        deep: c.deep | is_deep(f),
    }
}

// What was found so far, one element further; after: whether an element stands directly before it, x: whether it is EXCEPT. Most are
// sound, and tell no more than that there is an element.
pub fn list_more(so_far: ListCheck, after: bool, x: bool, f: Result<(), ElementFault>) -> ListCheck
    ensures { result ≡ list_more so_far after x f }
{
    match f {
        Ok(()) => {
            if x {
                ListCheck {
                    empty: so_far.empty,
                    misplaced: so_far.misplaced | !after,
                    reserved: so_far.reserved,
                    unsound: so_far.unsound,
                    missing: so_far.missing,
                    deep: so_far.deep,
                }
            } else {
                ListCheck {
                    empty: false,
                    misplaced: so_far.misplaced,
                    reserved: so_far.reserved,
                    unsound: so_far.unsound,
                    missing: so_far.missing,
                    deep: so_far.deep,
                }
            }
        }
        Err(ElementFault::Reserved) => list_fault(so_far, after, x, f),
        Err(ElementFault::Unknown) => list_fault(so_far, after, x, f),
        Err(ElementFault::Missing) => list_fault(so_far, after, x, f),
        Err(ElementFault::Deep) => list_fault(so_far, after, x, f),
    }
}

// c at the list's end.
pub fn list_end(c: ListCheck, after: bool) -> ListCheck
    ensures { result ≡ list_end c after }
{
    ListCheck {
        empty: c.empty,
        misplaced: c.misplaced | !after,
        reserved: c.reserved,
        unsound: c.unsound,
        missing: c.missing,
        deep: c.deep,
    }
}

// The lower fault of the tables that a rule names.
fn naming_fault(d: ListCheck, c: ListCheck) -> Result<(), Fault>
    ensures { result ≡ naming_fault_of d c }
{
    if d.missing | c.missing {
        return Err(Fault::TableName);
    }
    if d.deep | c.deep {
        return Err(Fault::TooDeep);
    }
    Ok(())
}

// The lowest fault of a rule with the lists d and c; bad: whether a percent of its command is bad.
pub fn lowest_fault(d: ListCheck, c: ListCheck, bad: bool) -> Result<(), Fault>
    ensures { result ≡ lowest_of d c bad }
{
    if d.empty | c.empty {
        return Err(Fault::NoElement);
    }
    if d.misplaced | c.misplaced {
        return Err(Fault::MisplacedExcept);
    }
    if d.reserved | c.reserved {
        return Err(Fault::ReservedStart);
    }
    if d.unsound | c.unsound {
        return Err(Fault::UnknownElement);
    }
    if bad {
        return Err(Fault::BadPercent);
    }
    naming_fault(d, c)
}

// Whether a percent is bad in the command, which follows the separator at j of s, if there is one.
pub fn bad_command(s: &[u8], j: usize) -> bool
    ensures { result ≡ bad_command_after j s.now }
{
    command::has_bad_percent(command::trim(rule::after_separator(s, j)))
}
