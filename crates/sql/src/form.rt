//! How a script is written: for which database, how it computes, how it is laid out, and of which epochs.

ghost use Rattle.std.specs.Prelude.{◌≡◌};
ghost use Rattle.sql.specs.Asked.{asked_of, layout_for, layout_of};
ghost use Rattle.sql.specs.Epochs.{declared_epoch, epoch_text, inner_join_word, join_word, made_epoch, reads_text};
ghost use Rattle.sql.specs.Text.{closing_text, made_word, making_of, opening_text, with_text};
ghost use Rattle.sql.specs.Dialects.{arithmetic_of, begin_text, create_word, database_name, dialect_of, end_text, has_recursion, operand_close, operand_open, promise_text, quote, sum_close, sum_open, wrap_close, wrap_open};

/// The database that a script is for.
#[derive(Clone, Copy)]
pub enum Dialect {
    Postgres,
    Sqlite,
    Spark,
}

/// How a script computes.
#[derive(Clone, Copy)]
pub enum Arithmetic {
    /// By BIGINT: a result of more than 64 bits is an error.
    Plain,
    /// By numbers of 38 digits, taken to 64 bits.
    Wrapped,
}

/// For which database a script is, and how it computes. SQLite has no numbers of more than 64 bits by which to wrap.
#[derive(Clone, Copy)]
pub enum Form {
    Postgres(Arithmetic),
    Sqlite,
    Spark(Arithmetic),
}

/// How the tables and the results are laid out.
#[derive(Clone, Copy)]
pub enum Layout {
    /// As a script: each table is made by a statement of its own.
    Script,
    /// As one statement, with the tables in its WITH. For SQLite and Spark a script stands for it.
    Statement,
}

/// Where a table is made.
#[derive(Clone, Copy)]
pub enum Making {
    /// By statements of its own.
    Alone,
    /// In a WITH, of which the table of that number is the last.
    Within(u64),
}

/// Of which epochs a script is.
#[derive(Clone, Copy)]
pub enum Epochs {
    /// Of one: the tables have its rows alone.
    One,
    /// Of all at once: the first column of each table is the epoch.
    Every,
}

/// The script that is asked for: its form and layout, of which epochs it is, and the name of the only output that it is to have, or all outputs.
#[derive(Clone, Copy)]
pub struct Request<'a> {
    pub form: Form,
    pub layout: Layout,
    pub epochs: Epochs,
    pub output: Option<&'a [u8]>,
}

/// How a table is written: in which form, of which epochs, and where it is made.
#[derive(Clone, Copy)]
pub struct Style {
    pub form: Form,
    pub epochs: Epochs,
    pub making: Making,
}

impl Request<'_> {
    /// The layout of what is written.
    pub fn layout(self) -> Layout
        ensures { result ≡ layout_of (asked_of self.entry) }
    {
        self.layout.of(self.form.dialect())
    }
}

impl Dialect {
    /// The database's name.
    pub fn database_name(self) -> &'static [u8]
        ensures { result.now ≡ database_name self }
    {
        match self {
            Dialect::Postgres => b"PostgreSQL",
            Dialect::Sqlite => b"SQLite",
            Dialect::Spark => b"Spark",
        }
    }

    /// Whether recursive tables are made. SQLite knows no recursive table in a subquery, and Spark no recursive UNION.
    pub fn has_recursion(self) -> bool
        ensures { result ≡ has_recursion self }
    {
        match self {
            Dialect::Postgres => true,
            Dialect::Sqlite | Dialect::Spark => false,
        }
    }

    /// What stands on both sides of a name.
    pub fn quote(self) -> &'static [u8]
        ensures { result.now ≡ quote self }
    {
        match self {
            Dialect::Postgres | Dialect::Sqlite => b"\"",
            Dialect::Spark => b"`",
        }
    }

    /// What stands before the first table that is made.
    pub fn begin_text(self) -> &'static [u8]
        ensures { result.now ≡ begin_text self }
    {
        match self {
            Dialect::Postgres => b"START TRANSACTION ISOLATION LEVEL REPEATABLE READ;\n",
            Dialect::Sqlite => b"BEGIN;\n",
            Dialect::Spark => b"SET spark.sql.ansi.enabled = true;\n",
        }
    }

    /// What stands after the last result.
    pub fn end_text(self) -> &'static [u8]
        ensures { result.now ≡ end_text self }
    {
        match self {
            Dialect::Postgres => b"COMMIT;\n",
            Dialect::Sqlite => b"ROLLBACK;\n",
            Dialect::Spark => b"",
        }
    }

    /// What stands before the name of a table that is made.
    pub fn create_word(self) -> &'static [u8]
        ensures { result.now ≡ create_word self }
    {
        match self {
            Dialect::Postgres | Dialect::Sqlite => b"CREATE TEMPORARY TABLE ",
            Dialect::Spark => b"CREATE OR REPLACE TEMPORARY VIEW ",
        }
    }
}

impl Layout {
    /// The layout of what is written for a database.
    pub fn of(self, dialect: Dialect) -> Layout
        ensures { result ≡ layout_for dialect self }
    {
        match dialect {
            Dialect::Postgres => self,
            Dialect::Sqlite | Dialect::Spark => Layout::Script,
        }
    }

    /// What stands before the tables.
    pub fn opening_text(self, dialect: Dialect) -> &'static [u8]
        ensures { result.now ≡ opening_text self dialect }
    {
        match self {
            Layout::Script => dialect.begin_text(),
            Layout::Statement => b"",
        }
    }

    /// What stands after the last result.
    pub fn closing_text(self, dialect: Dialect) -> &'static [u8]
        ensures { result.now ≡ closing_text self dialect }
    {
        match self {
            Layout::Script => dialect.end_text(),
            Layout::Statement => b"",
        }
    }

    /// Where tables are made, if those of these numbers are wanted by the results.
    pub fn making(self, wanted: &[u64]) -> Making
        ensures { result ≡ making_of self wanted.now }
    {
        match self {
            Layout::Script => Making::Alone,
            Layout::Statement => match wanted {
                [] => Making::Alone,
                [last, ..] => Making::Within(*last),
            },
        }
    }
}

impl Making {
    /// What stands before the first table.
    pub fn with_text(self) -> &'static [u8]
        ensures { result.now ≡ with_text self }
    {
        match self {
            Making::Alone => b"",
            Making::Within(_) => b"WITH ",
        }
    }

    /// What stands before the name of a table.
    pub fn word(self, dialect: Dialect) -> &'static [u8]
        ensures { result.now ≡ made_word self dialect }
    {
        match self {
            Making::Alone => dialect.create_word(),
            Making::Within(_) => b"",
        }
    }
}

impl Arithmetic {
    /// What a reader should know of numbers.
    pub fn promise_text(self) -> &'static [u8]
        ensures { result.now ≡ promise_text self }
    {
        match self {
            Arithmetic::Plain =>
                b"-- Right, or an error: where a number has more than 64 bits, an error ends it.\n",
            Arithmetic::Wrapped => b"-- Numbers wrap at 64 bits, as in Loom.\n",
        }
    }

    /// What stands before an operation.
    pub fn wrap_open(self) -> &'static [u8]
        ensures { result.now ≡ wrap_open self }
    {
        match self {
            Arithmetic::Plain => b"",
            Arithmetic::Wrapped => b"CAST(MOD(MOD(",
        }
    }

    /// What stands after an operation.
    pub fn wrap_close(self) -> &'static [u8]
        ensures { result.now ≡ wrap_close self }
    {
        match self {
            Arithmetic::Plain => b"",
            Arithmetic::Wrapped =>
                b" + 9223372036854775808, 18446744073709551616) + 18446744073709551616, 18446744073709551616) - 9223372036854775808 AS BIGINT)",
        }
    }

    /// What stands before a summand.
    pub fn sum_open(self) -> &'static [u8]
        ensures { result.now ≡ sum_open self }
    {
        match self {
            Arithmetic::Plain => b"CAST(SUM(",
            Arithmetic::Wrapped => b"CAST(MOD(MOD(SUM(",
        }
    }

    /// What stands after a summand.
    pub fn sum_close(self) -> &'static [u8]
        ensures { result.now ≡ sum_close self }
    {
        match self {
            Arithmetic::Plain => b") AS BIGINT)",
            Arithmetic::Wrapped =>
                b") + 9223372036854775808, 18446744073709551616) + 18446744073709551616, 18446744073709551616) - 9223372036854775808 AS BIGINT)",
        }
    }
}

impl Epochs {
    /// What stands between the database's name and the given tables.
    pub fn reads_text(self) -> &'static [u8]
        ensures { result.now ≡ reads_text self }
    {
        match self {
            Epochs::One => b". It reads these tables:\n",
            Epochs::Every =>
                b". The first column of each table is the epoch. It reads these tables:\n",
        }
    }

    /// What stands before the columns of a given table.
    pub fn declared_epoch(self) -> &'static [u8]
        ensures { result.now ≡ declared_epoch self }
    {
        match self {
            Epochs::One => b"",
            Epochs::Every => b"epoch BIGINT NOT NULL, ",
        }
    }

    /// What stands before the columns of a table that is made.
    pub fn made_epoch(self, dialect: Dialect) -> &'static [u8]
        ensures { result.now ≡ made_epoch self dialect }
    {
        match self {
            Epochs::One => b"",
            Epochs::Every => match dialect {
                Dialect::Postgres | Dialect::Spark => b"epoch, ",
                Dialect::Sqlite => b"epoch CHECK (typeof(epoch) = 'integer'), ",
            },
        }
    }

    /// What stands before the columns that a query names.
    pub fn epoch_text(self) -> &'static [u8]
        ensures { result.now ≡ epoch_text self }
    {
        match self {
            Epochs::One => b"",
            Epochs::Every => b"epoch, ",
        }
    }

    /// What stands between the second table of a join and the pairs.
    pub fn join_word(self) -> &'static [u8]
        ensures { result.now ≡ join_word self }
    {
        match self {
            Epochs::One => b" AS r ON ",
            Epochs::Every => b" AS r USING (epoch) WHERE ",
        }
    }

    /// What stands between the columns of a join's right side, if that is a subquery, and the pairs.
    pub fn inner_join_word(self) -> &'static [u8]
        ensures { result.now ≡ inner_join_word self }
    {
        match self {
            Epochs::One => b") ON ",
            Epochs::Every => b") USING (epoch) WHERE ",
        }
    }
}

impl Form {
    /// The database.
    pub fn dialect(self) -> Dialect
        ensures { result ≡ dialect_of self }
    {
        match self {
            Form::Postgres(_) => Dialect::Postgres,
            Form::Sqlite => Dialect::Sqlite,
            Form::Spark(_) => Dialect::Spark,
        }
    }

    /// How it computes.
    pub fn arithmetic(self) -> Arithmetic
        ensures { result ≡ arithmetic_of self }
    {
        match self {
            Form::Postgres(arithmetic) | Form::Spark(arithmetic) => arithmetic,
            Form::Sqlite => Arithmetic::Plain,
        }
    }

    /// What stands before an operand.
    pub fn operand_open(self) -> &'static [u8]
        ensures { result.now ≡ operand_open self }
    {
        match self {
            Form::Postgres(Arithmetic::Wrapped) | Form::Spark(Arithmetic::Wrapped) => b"CAST(",
            Form::Postgres(Arithmetic::Plain) | Form::Spark(Arithmetic::Plain) | Form::Sqlite =>
                b"",
        }
    }

    /// What stands after an operand.
    pub fn operand_close(self) -> &'static [u8]
        ensures { result.now ≡ operand_close self }
    {
        match self {
            Form::Postgres(Arithmetic::Wrapped) => b" AS NUMERIC(38))",
            Form::Spark(Arithmetic::Wrapped) => b" AS DECIMAL(38))",
            Form::Postgres(Arithmetic::Plain) | Form::Spark(Arithmetic::Plain) | Form::Sqlite =>
                b"",
        }
    }
}
