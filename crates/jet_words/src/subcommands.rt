//! The subcommands of the program, with their arguments.

/// An argument of a subcommand, by its name.
#[derive(Clone, Copy)]
pub enum Argument {
    /// A word that has to be there.
    Positional(&'static str),
    /// A number that has to be there, from the least to the greatest.
    Number(&'static str, u64, u64),
    /// Up to 16 words, one after another.
    List(&'static str),
    /// The same, of which one has to be there.
    RequiredList(&'static str),
    /// Numbers from the least to the greatest one after another, 1 to 4096.
    RequiredNumbers(&'static str, u64, u64),
    /// An option, by its long name, for a number from the least to the greatest.
    OptionalNumber(&'static str, u64, u64),
    /// The same, with a number that stands where none is given.
    NumberOption(&'static str, u64, u64, &'static str),
}

/// A subcommand.
pub struct Subcommand {
    /// Its name.
    pub name: &'static str,
    /// Its arguments, in their order.
    pub arguments: &'static [Argument],
}

/// The program's name.
const PROG: Argument = Argument::Positional("PROG");

/// The log's name.
const LOG: Argument = Argument::Positional("LOG");

/// The query's name.
const QUERY: Argument = Argument::Positional("QUERY");

/// The steps in an epoch.
const EPOCH: Argument = Argument::OptionalNumber("epoch", 1, 1099511627776);

/// How many workers analyse the epochs.
const WORKERS: Argument = Argument::NumberOption("workers", 1, 64, "4");

/// How many messages the link between two epochs holds.
const LINK: Argument = Argument::OptionalNumber("link", 1, 65536);

/// A run that is analysed for a query.
const ANALYSIS: &[Argument] = &[PROG, LOG, QUERY, EPOCH, WORKERS, LINK];

/// A channel of a run.
const CHANNEL: &[Argument] = &[PROG, LOG, Argument::Number("C", 0, 15)];

/// All subcommands: first those that tell of the rows of a query, then those that make something of a run without one.
pub const SUBCOMMANDS: &[Subcommand] = &[
    Subcommand {
        name: "query",
        arguments: ANALYSIS,
    },
    Subcommand {
        name: "influence",
        arguments: ANALYSIS,
    },
    Subcommand {
        name: "path",
        arguments: ANALYSIS,
    },
    Subcommand {
        name: "show",
        arguments: ANALYSIS,
    },
    Subcommand {
        name: "replay",
        arguments: &[PROG, LOG],
    },
    Subcommand {
        name: "calls",
        arguments: &[PROG, LOG],
    },
    Subcommand {
        name: "input",
        arguments: CHANNEL,
    },
    Subcommand {
        name: "output",
        arguments: CHANNEL,
    },
    Subcommand {
        name: "stack",
        arguments: &[PROG, LOG, Argument::RequiredNumbers("T", 0, 1099511627776)],
    },
    Subcommand {
        name: "decisions",
        arguments: &[PROG, LOG, QUERY],
    },
    Subcommand {
        name: "page",
        arguments: &[
            PROG,
            LOG,
            QUERY,
            Argument::Positional("PAGE"),
            EPOCH,
            WORKERS,
            LINK,
        ],
    },
    Subcommand {
        name: "record",
        arguments: &[
            PROG,
            LOG,
            Argument::List("IN"),
            Argument::NumberOption("pages", 1, 4096, "256"),
            Argument::NumberOption("piece", 1, 16777216, "16777216"),
            Argument::NumberOption("steps", 1, 1099511627776, "4294967295"),
        ],
    },
    Subcommand {
        name: "convert",
        arguments: &[PROG, LOG, Argument::Positional("NEW")],
    },
    Subcommand {
        name: "core",
        arguments: &[
            PROG,
            LOG,
            Argument::Number("T", 0, 1099511627776),
            Argument::Positional("FILE"),
        ],
    },
    Subcommand {
        name: "queries",
        arguments: &[
            PROG,
            LOG,
            Argument::RequiredList("QUERY"),
            EPOCH,
            WORKERS,
            LINK,
        ],
    },
    Subcommand {
        name: "bench",
        arguments: &[
            Argument::Number("SEED", 0, u64::MAX),
            Argument::Number("STEPS", 1, 2000000),
            EPOCH,
            WORKERS,
            LINK,
        ],
    },
];
