//! Queries as SQL: what the script of a query means. There is no program code here.
//!
//! `script_of` writes a program as tables, each by one query over tables before it: SELECT, WHERE, JOIN, GROUP BY, DISTINCT, UNION ALL, EXCEPT or
//! INTERSECT. A loop is written turn by turn; where recursive tables may be made, a closure of the most turns with a linear body is one, by WITH
//! RECURSIVE. The laws say that the script means what the program means, for every program, in whatever order a database keeps rows; where a database
//! ends a recursive table with the same rows; that a well-typed program's script is well formed; how many tables it has; how large the numbers become
//! on the way; that a script written without wrapping is right wherever no operator, count or sum is an error; and that a script of all epochs, whose
//! tables have the epoch as their first column, answers each by its own rows.
#![tactic(auto)]

pub mod laws;
