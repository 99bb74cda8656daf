//! The table of the initial basis, a row a line: the names that it is for, a colon, and what they are.

ghost use Rattle.std.specs.Prelude.{◌≡◌, IfOk};
ghost use Rattle.initial_basis.specs.Phrases.{rows_of};
ghost use Rattle.initial_basis.specs.Table.{type_lines, constructor_lines, exception_lines, value_lines};
ghost use Rattle.initial_basis.specs.Table.{int_lines, string_lines, char_lines};

use crate::row::Row;
use crate::words::rows_of;
use cm_base::{List, NoMemory};
use std::alloc::Global;

/// Type names in the order of their numbers, each behind its arguments: `eqtype` where it admits equality.
const TYPES: [&[u8]; 9] = [
    b"int : eqtype",
    b"bool : eqtype",
    b"string : eqtype",
    b"char : eqtype",
    b"'a list : eqtype",
    b"'a option : eqtype",
    b"'a ref : eqtype",
    b"exn : type",
    b"order : eqtype",
];

/// Constructors, those of one type in byte order.
const CONSTRUCTORS: [&[u8]; 7] = [
    b"false true : bool",
    b":: : 'a * 'a list -> 'a list",
    b"nil : 'a list",
    b"NONE : 'a option",
    b"SOME : 'a -> 'a option",
    b"ref : 'a -> 'a ref",
    b"EQUAL GREATER LESS : order",
];

const EXCEPTIONS: [&[u8]; 2] = [
    b"Bind Chr Div Match Overflow Size Subscript : exn",
    b"Fail : string -> exn",
];

const VALUES: [&[u8]; 22] = [
    b"+ - * div mod : int * int -> int",
    b"~ abs : int -> int",
    b"< <= > >= : int * int -> bool",
    b"= <> : ''a * ''a -> bool",
    b"not : bool -> bool",
    b"^ : string * string -> string",
    b"@ : 'a list * 'a list -> 'a list",
    b"before : 'a * unit -> 'a",
    b":= : 'a ref * 'a -> unit",
    b"! : 'a ref -> 'a",
    b"ignore : 'a -> unit",
    b"print : string -> unit",
    b"ord : char -> int",
    b"chr : int -> char",
    b"str : char -> string",
    b"explode : string -> char list",
    b"implode : char list -> string",
    b"size : string -> int",
    b"concat : string list -> string",
    b"substring : string * int * int -> string",
    b"rev : 'a list -> 'a list",
    b"length : 'a list -> int",
];

/// The values of the built-in structures.
const INT: [&[u8]; 3] = [
    b"toString : int -> string",
    b"compare : int * int -> order",
    b"min max : int * int -> int",
];

const STRING: [&[u8]; 2] = [
    b"sub : string * int -> char",
    b"compare : string * string -> order",
];

const CHAR: [&[u8]; 3] = [
    b"ord : char -> int",
    b"chr : int -> char",
    b"compare : char * char -> order",
];

#[tactic(auto, unfolding(crate::specs::Table::type_lines))]
pub(crate) fn type_rows(alloc: Global) -> Result<List<Row>, NoMemory>
    ensures { IfOk result (λ rows. rows ≡ rows_of type_lines) }
{
    rows_of(alloc, &TYPES)
}

#[tactic(auto, unfolding(crate::specs::Table::constructor_lines))]
pub(crate) fn constructor_rows(alloc: Global) -> Result<List<Row>, NoMemory>
    ensures { IfOk result (λ rows. rows ≡ rows_of constructor_lines) }
{
    rows_of(alloc, &CONSTRUCTORS)
}

#[tactic(auto, unfolding(crate::specs::Table::exception_lines))]
pub(crate) fn exception_rows(alloc: Global) -> Result<List<Row>, NoMemory>
    ensures { IfOk result (λ rows. rows ≡ rows_of exception_lines) }
{
    rows_of(alloc, &EXCEPTIONS)
}

#[tactic(auto, unfolding(crate::specs::Table::value_lines))]
pub(crate) fn value_rows(alloc: Global) -> Result<List<Row>, NoMemory>
    ensures { IfOk result (λ rows. rows ≡ rows_of value_lines) }
{
    rows_of(alloc, &VALUES)
}

#[tactic(auto, unfolding(crate::specs::Table::int_lines))]
pub(crate) fn int_rows(alloc: Global) -> Result<List<Row>, NoMemory>
    ensures { IfOk result (λ rows. rows ≡ rows_of int_lines) }
{
    rows_of(alloc, &INT)
}

#[tactic(auto, unfolding(crate::specs::Table::string_lines))]
pub(crate) fn string_rows(alloc: Global) -> Result<List<Row>, NoMemory>
    ensures { IfOk result (λ rows. rows ≡ rows_of string_lines) }
{
    rows_of(alloc, &STRING)
}

#[tactic(auto, unfolding(crate::specs::Table::char_lines))]
pub(crate) fn char_rows(alloc: Global) -> Result<List<Row>, NoMemory>
    ensures { IfOk result (λ rows. rows ≡ rows_of char_lines) }
{
    rows_of(alloc, &CHAR)
}
