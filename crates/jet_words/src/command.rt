//! A command of the program.

/// How a run is cut into epochs, and how these are analysed.
#[derive(Clone, Copy)]
pub struct Pipeline {
    /// The steps in an epoch, 1 to 1099511627776 (2^40), where the words tell it.
    pub epoch: Option<u64>,
    /// How many workers analyse the epochs, 1 to 64.
    pub workers: u32,
    /// How many messages the link between two epochs holds, 1 to 65536, where the words tell it.
    pub link: Option<u64>,
}

/// What is told of the rows of a query.
#[derive(Clone, Copy)]
pub enum Listing {
    /// The report: a line for each output byte and point, with its source bytes.
    BySink,
    /// The influence: a line for each source byte, with what it came to.
    BySource,
    /// The path by which the first source byte that is listed came to its output byte or point.
    ByPath,
    /// The report in runs of output bytes, with ranges of source bytes, and the bytes on both sides.
    ByRange,
}

/// What is made of a recorded run without a query.
#[derive(Clone, Copy)]
pub enum Product {
    /// Its numbers, as text.
    Numbers,
    /// A line for each of its calls, and one for its end.
    Calls,
    /// What it read on a channel, 0 to 15.
    Input(u32),
    /// What it wrote on a channel, 0 to 15.
    Output(u32),
}

/// What words stand for.
#[derive(Drop)]
pub enum Command<'a> {
    /// What is told of the rows of a query.
    Analysis {
        listing: Listing,
        /// The program's name.
        program: &'a str,
        /// The log's name.
        log: &'a str,
        /// The query's name.
        query: &'a str,
        /// How the run is analysed.
        pipeline: Pipeline,
    },
    /// What is made of a run: the names of the program and the log.
    Product {
        product: Product,
        program: &'a str,
        log: &'a str,
    },
    /// The calls in progress after so many steps each.
    Stacks {
        /// The program's name.
        program: &'a str,
        /// The log's name.
        log: &'a str,
        /// The numbers of steps, 1 to 4096 of them, each 0 to 1099511627776 (2^40).
        times: Vec<u64>,
    },
    /// Where a source byte of a query could turn a run: the names of the program, the log and the query.
    Decisions {
        program: &'a str,
        log: &'a str,
        query: &'a str,
    },
    /// The page of a query.
    Page {
        /// The program's name.
        program: &'a str,
        /// The log's name.
        log: &'a str,
        /// The query's name.
        query: &'a str,
        /// The name of the page that is written.
        page: &'a str,
        /// How the run is analysed.
        pipeline: Pipeline,
    },
    /// The recording of a run.
    Record {
        /// The program's name.
        program: &'a str,
        /// The name of the log that is written.
        log: &'a str,
        /// The names of the input files, at most 16; each is read on the channel of its place.
        inputs: Vec<&'a str>,
        /// The pages of memory, of 4096 bytes each, 1 to 4096.
        pages: u32,
        /// How many bytes a read gets at most, 1 to 16777216.
        piece: u32,
        /// The number of steps after which the run is cut off, 1 to 1099511627776 (2^40).
        steps: u64,
    },
    /// The log written anew in version 2: the names of the program, the log and the file that is written.
    Convert {
        program: &'a str,
        log: &'a str,
        new: &'a str,
    },
    /// The state after so many steps, as a core file.
    Core {
        /// The program's name.
        program: &'a str,
        /// The log's name.
        log: &'a str,
        /// The number of steps, 0 to 1099511627776 (2^40); past the run's steps it counts as their number.
        time: u64,
        /// The name of the core file that is written.
        core: &'a str,
    },
    /// The reports of several queries.
    Queries {
        /// The program's name.
        program: &'a str,
        /// The log's name.
        log: &'a str,
        /// The names of the query files, 1 to 16.
        queries: Vec<&'a str>,
        /// How the run is analysed.
        pipeline: Pipeline,
    },
    /// The numbers of a run that is made in memory.
    Bench {
        /// The seed of the bytes that the run reads.
        seed: u64,
        /// The number of steps after which the run is cut off, 1 to 2000000.
        steps: u64,
        /// How the run is analysed.
        pipeline: Pipeline,
    },
}
