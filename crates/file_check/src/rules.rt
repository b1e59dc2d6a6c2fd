//! The codes of what is told of a file beside its findings, and when each is told.

/// What may be told of a file: a code, and when it is, in words.
#[derive(Debug, Clone, Copy)]
pub struct Rule {
    /// The code.
    pub code: &'static str,
    /// When it is told.
    pub words: &'static str,
}

/// A file that the system does not give.
pub(crate) const CANNOT_READ: Rule = Rule {
    code: "CannotRead",
    words: "the system does not give the file",
};

/// A line that is no column.
pub(crate) const BAD_LINE: Rule = Rule {
    code: "BadLine",
    words: "a line is no column",
};

/// A file that has other columns than the first, where they are to be the same (docs/FORMAT.md, 2.9).
pub const NOT_SAME: Rule = Rule {
    code: "NotSame",
    words: "a column is not as in the first file",
};

/// Why a file is not read, or not whole (docs/FORMAT.md, 2.8).
pub const REFUSALS: [Rule; 13] = [
    Rule {
        code: "EmptyFile",
        words: "a file has no bytes, or blanks alone",
    },
    Rule {
        code: "ForeignFormat",
        words: "a file is of a format that is not read",
    },
    Rule {
        code: "Encrypted",
        words: "the footer of a Parquet file is encrypted",
    },
    Rule {
        code: "Truncated",
        words: "a file, or the message of a stream, is cut off",
    },
    Rule {
        code: "FooterLength",
        words: "a footer has no bytes, or more than stand before its size",
    },
    Rule {
        code: "BadFooter",
        words: "the footer of a Parquet file breaks a rule of its protocol",
    },
    Rule {
        code: "BadMessage",
        words: "a message of Arrow breaks a rule of its format",
    },
    Rule {
        code: "NoSchema",
        words: "an Arrow stream does not begin with a schema",
    },
    Rule {
        code: "BadTree",
        words: "the elements of a Parquet file make no tree",
    },
    BAD_LINE,
    Rule {
        code: "LongLine",
        words: "a line has more than 1048576 bytes",
    },
    Rule {
        code: "ReportTooLarge",
        words: "the report would be larger than its budget",
    },
    CANNOT_READ,
];

/// The rule of a code of a fault.
pub(crate) fn rule_of(code: &'static str) -> Rule {
    for rule in &REFUSALS {
        if rule.code == code {
            return *rule;
        }
    }
    Rule {
        code,
        words: "a file is not read or written",
    }
}
