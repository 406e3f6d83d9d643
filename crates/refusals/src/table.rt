//! The table of the refusals, in six parts: a part is as long as one proof can well compute with.

ghost use Rattle.std.specs.Prelude.{◌≡◌, ◌==◌, option_map, IfSome};
ghost use Rattle.std.specs.List.{find};

/// What a refusal means. Texts are UTF-8; a sentence of `text` is a line.
#[derive(Clone, Copy)]
pub struct Explanation {
    /// Its number: 1 to 25 of queries, 26 to 30 of queries by a schema, 31 to 40 of a schedule's steps, 41 to 47 of the lines of inputs, of which
    /// 43, 44 and 46 are of a schedule's lines too, 51 to 57 of the lines of schemas, 61 to 67 of CSV files and of answers that become one.
    pub code: u8,
    /// What is wrong, in a phrase.
    pub summary: &'static str,
    /// What the place in the query covers. Empty where a refusal names a line: those of all other texts do.
    pub place: &'static str,
    /// What it means and what helps, in one to three lines.
    pub text: &'static str,
    /// A query that is refused so by `check`; under `input a/2; output a;`, for 31 to 39 a schedule with one such step on one worker, for
    /// 40 the same with `--views`, and for 41 to 47 an input text. Empty where none is short.
    pub wrong: &'static str,
    /// The same, mended: it is taken. Empty where `wrong` is.
    pub right: &'static str,
}

/// The numbers that refusals have, in words.
pub const NUMBERS: &str = "1 to 6, 11 to 47, 51 to 57 and 61 to 67";

/// The refusals of a query, each code once, in ascending order.
pub static OF_QUERIES: [Explanation; 21] = [
    Explanation {
        code: 1,
        summary: "an unexpected character, a `#` without a number, or a `!` without `=`",
        place: "the byte",
        text: "A query is made of names, keywords, numbers, columns such as `#0`, and signs.\n\
            This byte begins none of them: a name has lower-case letters, digits and `_`, and there are no quotes and no comments.",
        wrong: "input a/1; output where(a; #0 ! 5);",
        right: "input a/1; output where(a; #0 != 5);",
    },
    Explanation {
        code: 2,
        summary: "a number with a leading zero, or above 9223372036854775807",
        place: "the digits, including a column's `#`",
        text: "A number is `0`, or digits that don't begin with 0, and at most 9223372036854775807; a column's number too.\n\
            It has no sign: `-5` is the negation of 5.",
        wrong: "input a/1; output select(a; #0 + 007);",
        right: "input a/1; output select(a; #0 + 7);",
    },
    Explanation {
        code: 3,
        summary: "a name over 32 bytes",
        place: "the name",
        text: "A name is a letter `a` to `z`, then letters, digits and `_`, at most 32 bytes in all.\n\
            A shorter name helps, everywhere where the long one stands.",
        wrong: "input a_name_that_is_longer_than_it_may_be/1; output a_name_that_is_longer_than_it_may_be;",
        right: "input a_name_that_is_short_enough/1; output a_name_that_is_short_enough;",
    },
    Explanation {
        code: 4,
        summary: "an unexpected word, or the text ends too early",
        place: "the word, or the end of the text",
        text: "No query that begins like this one continues with this word.\n\
            Often a `;`, a `,` or a bracket is missing just before it, or a keyword stands where a name should.\n\
            Inputs come first, then lets, then one output or more.",
        wrong: "input a/1 output a;",
        right: "input a/1; output a;",
    },
    Explanation {
        code: 5,
        summary: "brackets or phrases more than 64 deep",
        place: "the bracket, or the word that the phrase is named for",
        text: "Brackets nest at most 64 deep, and so do relations, scalars and conditions; \
            in a row such as `#0 = 1 or #0 = 2 or ..` each operator counts.\n\
            Brackets that change nothing can go, and a relation deep inside can be named by a `let`.",
        wrong: "input a/1; output select(a; (((((((((((((((((((((((((((((((((((((((((((((((((((((((((((((((((#0))))))))))))))))))))))))))))))))))))))))))))))))))))))))))))))))));",
        right: "input a/1; output select(a; (#0));",
    },
    Explanation {
        code: 6,
        summary: "a text over 1,048,576 bytes",
        place: "where it should have ended",
        text: "A query text has at most 1,048,576 bytes, including white space.\nA longer one isn't read to its end, so no other error is reported.",
        wrong: "",
        right: "",
    },
    Explanation {
        code: 11,
        summary: "a name that is not known here",
        place: "the name",
        text: "A relation is called by the name of an input, of a `let` that stands before, or, in a loop's body, of the loop's variable.\n\
            Nothing of this name is known at this place: it may be misspelled, or named only further down, or be the variable of a loop that is over.",
        wrong: "input a/1; output b;",
        right: "input a/1; output a;",
    },
    Explanation {
        code: 12,
        summary: "a name that is in scope already",
        place: "the name",
        text: "An input, a `let` or a loop's variable takes a name that no other one has at this place.\n\
            Inputs and lets keep theirs to the end of the query, and a loop's variable to the end of the loop's body.",
        wrong: "input a/1; let a = distinct(a); output a;",
        right: "input a/1; let b = distinct(a); output b;",
    },
    Explanation {
        code: 13,
        summary: "a column that the relation doesn't have",
        place: "the column",
        text: "The fields of a relation are numbered from #0: a relation of 2 fields has the columns #0 and #1, and no other.\n\
            In a join's pair the left column is one of the first relation, and the right one of the second.",
        wrong: "input a/2; output select(a; #2);",
        right: "input a/2; output select(a; #1);",
    },
    Explanation {
        code: 14,
        summary: "`concat`, `except` or `intersect` of relations of different arities",
        place: "the whole form",
        text: "These forms bring the records of two relations together, so both must have the same number of fields.\n\
            A `select` brings one of them to the fields that the other has.",
        wrong: "input a/1; input b/2; output concat(a, b);",
        right: "input a/1; input b/2; output concat(a, select(b; #0));",
    },
    Explanation {
        code: 15,
        summary: "a loop's body with another arity than its start",
        place: "the body",
        text: "A loop's variable is the start at first, and at each later turn what the body gave, or in a closure what of that was new: \
            so both must have the same number of fields.\n\
            A `select` round the body brings it to the fields of the start.",
        wrong: "input a/2; output iterate(3; x = a; select(x; #0));",
        right: "input a/2; output iterate(3; x = a; select(x; #1, #0));",
    },
    Explanation {
        code: 16,
        summary: "0 fields, or over 16",
        place: "the number, or the whole form",
        text: "A record has 1 to 16 fields: those of an input, and those that a `select`, a `join` or a `group` makes.\n\
            A join's records have the fields of both relations, a group's its keys and then its aggregates.",
        wrong: "input a/0; output a;",
        right: "input a/1; output a;",
    },
    Explanation {
        code: 17,
        summary: "over 65535 turns",
        place: "the number",
        text: "A loop takes 0 to 65535 turns.\n\
            A loop in the body of another one takes its turns at each turn of the outer one, so two of them together can take more.",
        wrong: "input a/1; output iterate(65536; x = a; x);",
        right: "input a/1; output iterate(65535; x = a; x);",
    },
    Explanation {
        code: 18,
        summary: "loops over 16 deep",
        place: "the whole form",
        text: "A loop can stand in the bodies of at most 15 others.\n\
            A loop that doesn't read the variables of those outside it can be named by a `let` before them.",
        wrong: "input a/1; output iterate(1; b = a; iterate(1; c = a; iterate(1; d = a; iterate(1; e = a; iterate(1; f = a; iterate(1; g = a; \
            iterate(1; h = a; iterate(1; i = a; iterate(1; j = a; iterate(1; k = a; iterate(1; l = a; iterate(1; m = a; iterate(1; n = a; \
            iterate(1; o = a; iterate(1; p = a; iterate(1; q = a; iterate(1; r = a; r)))))))))))))))));",
        right: "input a/1; output iterate(1; b = a; iterate(1; c = a; iterate(1; d = a; iterate(1; e = a; iterate(1; f = a; iterate(1; g = a; \
            iterate(1; h = a; iterate(1; i = a; iterate(1; j = a; iterate(1; k = a; iterate(1; l = a; iterate(1; m = a; iterate(1; n = a; \
            iterate(1; o = a; iterate(1; p = a; iterate(1; q = a; q))))))))))))))));",
    },
    Explanation {
        code: 19,
        summary: "over 16 inputs",
        place: "the 17th input's name",
        text: "A query declares 1 to 16 inputs.\nInputs with the same number of fields can be one, with one more field that tells them apart.",
        wrong: "input a/1; input b/1; input c/1; input d/1; input e/1; input f/1; input g/1; input h/1; input i/1; input j/1; input k/1; input l/1; \
            input m/1; input n/1; input o/1; input p/1; input q/1; output a;",
        right: "input a/1; input b/1; input c/1; input d/1; input e/1; input f/1; input g/1; input h/1; input i/1; input j/1; input k/1; input l/1; \
            input m/1; input n/1; input o/1; input p/1; output a;",
    },
    Explanation {
        code: 20,
        summary: "a name that an earlier output has",
        place: "the name, or the word `output` where no name is given",
        text: "No two outputs have the same name, and an output without a name is called `out`.\n\
            Output names are separate from all others: an output may have the name of an input, a `let` or a loop's variable.",
        wrong: "input a/1; output a; output distinct(a);",
        right: "input a/1; output a; output once = distinct(a);",
    },
    Explanation {
        code: 21,
        summary: "a dataflow graph of over 4096 vertices",
        place: "",
        text: "A query is compiled to a dataflow graph, which has a vertex for each relation form and several for each loop.\n\
            A `let` is compiled once, however often its name is used, so a form that is written several times should be named by one.",
        wrong: "",
        right: "",
    },
    Explanation {
        code: 22,
        summary: "one statement of SQL for several outputs: `--output NAME` names one",
        place: "the name of the second output",
        text: "`loom sql --with` writes one statement, and that gives the rows of one output: name it by `--output NAME`.\n\
            Without `--with` a script gives the rows of each output.",
        wrong: "",
        right: "",
    },
    Explanation {
        code: 23,
        summary: "over 16 outputs",
        place: "the 17th output's word `output`",
        text: "A query has 1 to 16 outputs.\n\
            Outputs with the same number of fields can be one, the `concat` of them, with one more field that tells them apart.",
        wrong: "input a/1; output a = a; output b = a; output c = a; output d = a; output e = a; output f = a; output g = a; output h = a; \
            output i = a; output j = a; output k = a; output l = a; output m = a; output n = a; output o = a; output p = a; output q = a;",
        right: "input a/1; output a = a; output b = a; output c = a; output d = a; output e = a; output f = a; output g = a; output h = a; \
            output i = a; output j = a; output k = a; output l = a; output m = a; output n = a; output o = a; output p = a;",
    },
    Explanation {
        code: 24,
        summary: "over 4096 tables of SQL",
        place: "the name of the `let` or the output where they become too many",
        text: "`loom sql` writes a table for each relation form, and a loop's tables again for each turn, at least one.\n\
            Fewer turns help, and so does a `let` for a form that is written several times. For PostgreSQL `closure(65535; ..)` is one table \
            if its body takes the variable once, through `select`, `where` and `join` alone.",
        wrong: "",
        right: "",
    },
    Explanation {
        code: 25,
        summary: "no output has the name",
        place: "the name of the first output",
        text: "`loom sql --output NAME` writes the output of that name alone; one that is given no name is called out.",
        wrong: "",
        right: "",
    },
];

/// The refusals of a query by a schema, each code once, in ascending order.
pub static OF_KINDS: [Explanation; 5] = [
    Explanation {
        code: 26,
        summary: "a scalar or an aggregate of a text, or of quantities that don't go together",
        place: "the scalar or the aggregate, or the column in it",
        text: "Texts stand as numbers, of which nothing can be computed. Days and times move by whole numbers, and have no sum.\n\
            Two days can be subtracted, which gives a whole number. `loom kinds` lists what each field stands for.",
        wrong: "",
        right: "",
    },
    Explanation {
        code: 27,
        summary: "a comparison of what has no order, or of different kinds",
        place: "the comparison",
        text: "Texts are equal or not: their numbers have no order. A day can't be compared with a decimal number, say.\n\
            A text is compared with another one, or with the number of a constant of the schema; a number with its own kind or with a bare number.",
        wrong: "",
        right: "",
    },
    Explanation {
        code: 28,
        summary: "a join of columns of different kinds",
        place: "the left column",
        text: "The columns of a pair have to stand for the same: a text for a text, a day for a day.\n\
            A decimal number meets only one with as many digits after the point.",
        wrong: "",
        right: "",
    },
    Explanation {
        code: 29,
        summary: "relations put together whose fields are of different kinds",
        place: "the form, or the loop",
        text: "`concat`, `except` and `intersect` need fields of the same kinds on both sides, and a loop's body gives the kinds of its start.\n\
            A bare number at the start takes the kind that the first turn gives it.",
        wrong: "",
        right: "",
    },
    Explanation {
        code: 30,
        summary: "an input or an output that the schema describes otherwise",
        place: "its name, or its number of fields",
        text: "The schema has no input or output of that name, or another number of columns, or other kinds of fields.\n\
            `loom check` says how many fields there are; the schema has a line for each.",
        wrong: "",
        right: "",
    },
];

/// The refusals of a schedule's steps, each code once, in ascending order.
pub static OF_STEPS: [Explanation; 10] = [
    Explanation {
        code: 31,
        summary: "a step on an input that is closed",
        place: "",
        text: "A closed input takes no more records, and is neither sealed nor closed again.\nA refused step changes nothing, and the schedule goes on.",
        wrong: "x a\nf a 1 2\n",
        right: "f a 1 2\nx a\n",
    },
    Explanation {
        code: 32,
        summary: "a step on an input that the query doesn't have",
        place: "",
        text: "A feed, a seal and a close name an input that the query declares, spelled exactly as there.\nA `let` is not an input.",
        wrong: "s b\n",
        right: "s a\n",
    },
    Explanation {
        code: 33,
        summary: "a record fed with a wrong number of fields",
        place: "",
        text: "After the input's name a record has as many fields as the query declares for it: under `input a/2` each record of `a` has 2 fields.",
        wrong: "f a 1 2 3\n",
        right: "f a 1 2\n",
    },
    Explanation {
        code: 34,
        summary: "a choice that the worker doesn't have, or no such worker",
        place: "",
        text: "A worker's choices are counted from 0: its messages in the order in which they came, \
            and then its notifications that may be delivered now; with `--views`, as the worker sees it.\n\
            Workers are counted from 0 too, and there is one unless `--workers` says otherwise.",
        wrong: "d 0 0\n",
        right: "f a 1 2\nd 0 0\n",
    },
    Explanation {
        code: 35,
        summary: "a choice for a worker that holds an event already",
        place: "",
        text: "A worker holds one event at a time: it takes it with `t`, and gives it back with `c`.",
        wrong: "f a 1 2\nf a 3 4\nt 0 0\nt 0 0\n",
        right: "f a 1 2\nf a 3 4\nt 0 0\nc 0\nt 0 0\n",
    },
    Explanation {
        code: 36,
        summary: "nothing to give back: the worker holds no event, or there is no such worker",
        place: "",
        text: "With `c` a worker gives back the event that it took with `t`; `d` has given it back already.",
        wrong: "f a 1 2\nd 0 0\nc 0\n",
        right: "f a 1 2\nt 0 0\nc 0\n",
    },
    Explanation {
        code: 37,
        summary: "a step after the engine has stopped",
        place: "",
        text: "A stopped engine takes no records, and hands no event out; what is held may still be given back.\n\
            In a schedule it stops where an event is given up for a count that is too large (39).",
        wrong: "",
        right: "",
    },
    Explanation {
        code: 38,
        summary: "a seal of the epoch 4294967295, the last one",
        place: "",
        text: "A seal opens the next epoch, and epochs are numbered from 0 to 4294967295.",
        wrong: "",
        right: "",
    },
    Explanation {
        code: 39,
        summary: "a count that is too large: there would be over 9223372036854775807 equal records",
        place: "",
        text: "Equal records are kept as one with a count, from 1 to 9223372036854775807: \
            no more of them can be in what a vertex has taken in, or sends at once.\n\
            The event is given up, and the engine stops: a schedule goes on, while `run` and `follow` end with `count too large`.\n\
            Often a `distinct` before a join, or in a loop's body, keeps the counts small.",
        wrong: "",
        right: "",
    },
    Explanation {
        code: 40,
        summary: "no changes of that sender wait for that worker, or there is no such sender or worker",
        place: "",
        text: "With `--views` a worker sees the changes that others post only once it has applied them: \
            `v W S` lets worker W apply the next batch of sender S.\n\
            Sender S is worker S; the sender after the last worker is whoever feeds, seals and closes.",
        wrong: "f a 1 2\nv 0 0\n",
        right: "f a 1 2\nv 0 1\n",
    },
];

/// The refusals of lines, each code once, in ascending order.
pub static OF_LINES: [Explanation; 7] = [
    Explanation {
        code: 41,
        summary: "a record before the first `epoch` line",
        place: "",
        text: "A line `epoch` begins each epoch, the first one too, and the records of the epoch stand under it.",
        wrong: "a 1 2\nepoch\n",
        right: "epoch\na 1 2\n",
    },
    Explanation {
        code: 42,
        summary: "a record of an unknown input",
        place: "",
        text: "A record's line begins with the name of an input that the query declares, spelled exactly as there.\nA `let` is not an input.",
        wrong: "epoch\nb 1 2\n",
        right: "epoch\na 1 2\n",
    },
    Explanation {
        code: 43,
        summary: "the last line has no line feed",
        place: "",
        text: "Each line of an input or a schedule ends with a line feed, the last one too: \
            without it the text may have been cut off, and a number with it.\n\
            The wrong text here ends right after its last digit.",
        wrong: "epoch\na 1 2",
        right: "epoch\na 1 2\n",
    },
    Explanation {
        code: 44,
        summary: "a bad number",
        place: "",
        text: "A field is a whole number in its plain spelling: `0`, or an optional `-` and digits that don't begin with 0.\n\
            The least is -9223372036854775808, the greatest 9223372036854775807.\n\
            The workers, choices, epochs and senders of a schedule are such numbers without a sign, from 0 to 4294967295.",
        wrong: "epoch\na 01 2\n",
        right: "epoch\na 1 2\n",
    },
    Explanation {
        code: 45,
        summary: "a wrong number of fields",
        place: "",
        text: "After the input's name a record has as many fields as the query declares for it: under `input a/2` each record of `a` has 2 fields.",
        wrong: "epoch\na 1 2 3\n",
        right: "epoch\na 1 2\n",
    },
    Explanation {
        code: 46,
        summary: "a malformed line: an empty line, two spaces together, a space at either end, or a first word that is not a name; \
            in a schedule, a line that is not a step",
        place: "",
        text: "A line of an input is `epoch`, or an input's name and then each field after one space.\n\
            A line of a schedule is `f INPUT FIELD ..`, `s INPUT`, `x INPUT`, `t WORKER CHOICE`, `c WORKER`, `d WORKER CHOICE`, `p EPOCH` \
            or, with `--views`, `v WORKER SENDER`.\n\
            There are no empty lines, no other spaces, no tabs and no carriage returns.",
        wrong: "epoch\na 1  2\n",
        right: "epoch\na 1 2\n",
    },
    Explanation {
        code: 47,
        summary: "over 4,294,967,295 epochs",
        place: "",
        text: "Epochs are numbered from 0, and a text has at most 4,294,967,295 of them.\nA longer input has to be run in parts.",
        wrong: "",
        right: "",
    },
];

/// The refusals of schemas, each code once, in ascending order.
pub static OF_SCHEMAS: [Explanation; 7] = [
    Explanation {
        code: 51,
        summary: "no line of a schema",
        place: "",
        text: "Inputs come first, then outputs, then constants: `input sale`, `input sale by day`, `input customer every epoch`, `output out`, `constant home = \"Austria\"`.\n\
            Under an input or output stands a line for each column: two spaces, its name in the header row, and the kind of its cells.\n\
            Each line ends with a line feed, and there are no empty lines.",
        wrong: "",
        right: "",
    },
    Explanation {
        code: 52,
        summary: "no kind of cells",
        place: "",
        text: "The kinds are `int`, `decimal(1)` to `decimal(18)`, `date`, `time` and `text`.\n\
            After a kind may stand ` or ` and what an empty cell stands for: `int or 0`, `text or \"\"`.",
        wrong: "",
        right: "",
    },
    Explanation {
        code: 53,
        summary: "an empty cell's value that is no cell of the column",
        place: "",
        text: "What stands after `or` is spelled as a cell of the column: `decimal(2) or 0.00`, `date or 1970-01-01`. Of a text it is `\"\"`.",
        wrong: "",
        right: "",
    },
    Explanation {
        code: 54,
        summary: "a name or a constant's text that is in use",
        place: "",
        text: "Inputs have different names, and so have outputs, constants, and the columns of one table. Two constants have different texts.",
        wrong: "",
        right: "",
    },
    Explanation {
        code: 55,
        summary: "a table with no column, or over 16",
        place: "",
        text: "The line of an input or output is followed by the lines of its 1 to 16 columns.",
        wrong: "",
        right: "",
    },
    Explanation {
        code: 56,
        summary: "`by` names no column, or one of texts",
        place: "",
        text: "After `by` stands the name of one of the input's columns, spelled as below it. Texts have no order, so none of them begins an epoch.",
        wrong: "",
        right: "",
    },
    Explanation {
        code: 57,
        summary: "an input whose epochs aren't said",
        place: "",
        text: "If an input has a `by`, each other one is `every epoch`: all its records are part of each epoch.\n\
            Without a `by` all records are in one epoch, and no input is `every epoch`.",
        wrong: "",
        right: "",
    },
];

/// The refusals of CSV files and of answers that become one, each code once, in ascending order.
pub static OF_TABLES: [Explanation; 7] = [
    Explanation {
        code: 61,
        summary: "the text isn't one of CSV",
        place: "",
        text: "Cells are separated by commas, and records end with LF or CRLF. A cell with a comma, a quote or a line break stands in quotes, and a quote in it is doubled.\n\
            A quote that is never closed, one in a cell without quotes, more after a closing quote, a carriage return alone and an empty line are refused.",
        wrong: "",
        right: "",
    },
    Explanation {
        code: 62,
        summary: "another header row than the schema's",
        place: "",
        text: "The first row of a file has the names of the schema's columns, in its order and spelled as there.",
        wrong: "",
        right: "",
    },
    Explanation {
        code: 63,
        summary: "another number of cells than of columns",
        place: "",
        text: "Each record has a cell for each column of the schema. A comma in a cell needs quotes round the cell.",
        wrong: "",
        right: "",
    },
    Explanation {
        code: 64,
        summary: "a cell that is none of its column's kind",
        place: "",
        text: "An `int` is like `-7`, a `decimal(2)` like `-12.50`, a `date` like `2024-02-29`, a `time` like `09:42:19`, each in this one spelling.\n\
            An empty cell is one only where the schema says so: `int or 0` takes it for 0, and then refuses the cell `0`.\n\
            Of an answer: a number that stands for no such cell, or for no text of the dictionary.",
        wrong: "",
        right: "",
    },
    Explanation {
        code: 65,
        summary: "an epoch that comes too late",
        place: "",
        text: "The file of an input with a `by` is in the ascending order of that column: sort it first.",
        wrong: "",
        right: "",
    },
    Explanation {
        code: 66,
        summary: "a dictionary with a text twice, or two cells in a record",
        place: "",
        text: "A dictionary's file has the header `text`, and one text in each record, all different. `encode` and `run` write it.",
        wrong: "",
        right: "",
    },
    Explanation {
        code: 67,
        summary: "no line of this output's answer",
        place: "",
        text: "`decode` reads what `run` writes of a query with this one output: lines `epoch N`, and under each a number for each of the schema's columns.",
        wrong: "",
        right: "",
    },
];

/// The first of the rows with this code. None exactly where no row has it.
pub fn row_of(rows: &'static [Explanation], code: u8) -> Option<&'static Explanation>
    ensures row { option_map (λ e. e.now) result ≡ find (λ e. e.code == code) rows.entry.now }
    ensures code { IfSome result (λ e. e.now.code ≡ code) }
{
    rows.iter().find(|row| row.code == code)
}

/// The row of a query's refusal.
fn of_query(code: u8) -> Option<&'static Explanation>
    ensures { IfSome result (λ e. e.now.code ≡ code) }
{
    row_of(&OF_QUERIES, code)
}

/// The row of a refusal of a query by a schema.
fn of_kind(code: u8) -> Option<&'static Explanation>
    ensures { IfSome result (λ e. e.now.code ≡ code) }
{
    row_of(&OF_KINDS, code)
}

/// The row of a step's refusal.
fn of_step(code: u8) -> Option<&'static Explanation>
    ensures { IfSome result (λ e. e.now.code ≡ code) }
{
    row_of(&OF_STEPS, code)
}

/// The row of a line's refusal.
fn of_line(code: u8) -> Option<&'static Explanation>
    ensures { IfSome result (λ e. e.now.code ≡ code) }
{
    row_of(&OF_LINES, code)
}

/// The row of a schema's refusal.
fn of_schema(code: u8) -> Option<&'static Explanation>
    ensures { IfSome result (λ e. e.now.code ≡ code) }
{
    row_of(&OF_SCHEMAS, code)
}

/// The row of the refusal of a CSV file or an answer.
fn of_table(code: u8) -> Option<&'static Explanation>
    ensures { IfSome result (λ e. e.now.code ≡ code) }
{
    row_of(&OF_TABLES, code)
}

/// The table's row of a code: what `row_of` finds in its part of the table, which no clause can name.
pub fn explanation_of(code: u8) -> Option<&'static Explanation>
    ensures { IfSome result (λ e. e.now.code ≡ code) }
{
    match code {
        0..=25 => of_query(code),
        26..=30 => of_kind(code),
        31..=40 => of_step(code),
        41..=50 => of_line(code),
        51..=60 => of_schema(code),
        61..=255 => of_table(code),
    }
}
