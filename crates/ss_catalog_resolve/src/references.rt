//! Numbers for names, in what triggers wait for and in what procedures take and touch.

ghost use Rattle.std.specs.Prelude.{◌≡◌, ◌≤◌, length, map, IfOk};
ghost use Rattle.ss_catalog_resolve.specs.Numbers.{number_in};
ghost use Rattle.ss_catalog_resolve.specs.Numbered.{on_in, touch_of};

use ss_catalog_json::Word;
use ss_catalog_outline::TouchOutline;
use ss_model::{On, Touch};
use ss_names::NameIndex;
use ss_value::{Column, Copies, NoMemory, Seq};
use std::alloc::Global;

// ---- numbers

/// The number of a name: its first position, and 0 for one that isn't there. Takes one look-up.
pub fn number_of(index: &NameIndex, name: &[u8]) -> usize
    ensures { result ≡ number_in index.now name.now }
{
    index.position(name).unwrap_or(0)
}

/// The number of a column or an argument, 0 for one that isn't there. Takes one look-up.
pub fn column_number(columns: &NameIndex, name: &[u8]) -> u8
    requires { length columns.now ≤ 256 }
    ensures { result ≡ number_in columns.now name.now }
{
    number_of(columns, name) as u8
}

/// The number of an element of a section, 0 for one that isn't there. Takes one look-up.
pub fn section_number(section: &NameIndex, name: &[u8]) -> u16
    requires { length section.now ≤ 65536 }
    ensures { result ≡ number_in section.now name.now }
{
    number_of(section, name) as u16
}

/// The numbers of names, 0 for one that isn't there.
pub fn numbers_of(alloc: Global, index: &NameIndex, names: &[Word]) -> Result<Seq<u16>, NoMemory>
    requires { length index.now ≤ 65536 }
    ensures { IfOk result (λ numbers. numbers ≡ map (number_in index.now) names.now) }
{
    let mut numbers = Seq::new(alloc);
    for name in names {
        let number = section_number(index, name.as_slice());
        numbers.push(number)?;
    }
    Ok(numbers)
}

// ---- what triggers wait for, and what procedures touch

/// What a trigger waits for: the stream of this name, or else the window, and window 0 for a name that is neither.
/// Takes two look-ups.
pub fn on_of(streams: &NameIndex, windows: &NameIndex, name: &Word) -> On
    requires streams { length streams.now ≤ 65536 }
    requires windows { length windows.now ≤ 65536 }
    ensures { result ≡ on_in streams.now windows.now name.now }
{
    let name = name.as_slice();
    if streams.has(name) {
        On::Stream(section_number(streams, name))
    } else {
        On::Window(section_number(windows, name))
    }
}

/// The touch set of a procedure with these arguments. An argument that isn't there becomes argument 0.
pub fn touch_of(alloc: Global, args: &[Column], touch: &TouchOutline) -> Result<Touch, NoMemory>
    requires { length args.now ≤ 256 }
    ensures { IfOk result (λ touched. touched ≡ touch_of args.now touch.now) }
{
    match touch {
        TouchOutline::Part(part) => Ok(Touch::Part(*part)),
        TouchOutline::Arg(name) => {
            // Made here, since only this form of a touch set names an argument.
            let args = NameIndex::new(alloc, args)?;
            Ok(Touch::Arg(column_number(&args, name.as_slice())))
        }
        TouchOutline::Multi(parts) => {
            let parts = parts.duplicate(alloc)?;
            Ok(Touch::Multi(parts))
        }
        TouchOutline::All => Ok(Touch::All),
    }
}
