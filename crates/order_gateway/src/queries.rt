//! What is asked of the run.

ghost use Rattle.std.specs.Prelude.{IfOk};
ghost use Rattle.report_model.specs.Query.{Alike};
ghost use Rattle.order_gateway.specs.Workload.{workload_query};

use no_memory::{Fault, NoMemory};
use query_lang::{Query, parse};
use std::alloc::Global;

const QUERY: &[u8] = b"rule compute\nsource all\nsink all\n";

/// The query of the workload: all source bytes, by what is computed from them, of all output bytes. It gives up with
/// NoMemory alone.
pub fn query(alloc: Global) -> Result<Query, NoMemory>
    ensures { IfOk result (λ q. Alike q workload_query) }
{
    match parse(alloc, QUERY) {
        Ok(query) => Ok(query),
        Err(Fault::NoMemory(no_memory)) => Err(no_memory),
        Err(Fault::At(_)) => unreachable!(),
    }
}
