ghost use Rattle.evaluator.specs.Cells.{eval_cell, takes_cell};
ghost use Rattle.evaluator.specs.Facts.{look};
ghost use Rattle.evaluator.specs.CellLaws.{cell_changes, cell_replies, cells_ask_few, cells_lawful};

use crate::runs::ran;
use evaluator::{CellRequest, Cells, Evaluator, Facts, Outcome};
use schedule::read_schedule;
use std::test::Fail;
use zbase::Memory;

/// The evaluator of cells, with memory for so many evaluations.
#[derive(Drop)]
struct Starving {
    cells: Cells,
    left: u32,
}

impl Evaluator for Starving {
    type Request = CellRequest;

    type State = ();

    ghost takes = { takes_cell };

    ghost meaning = { eval_cell };

    ghost fits = { λ _ _ _. Unit {0} };

    fn take(&self, bytes: &[u8]) -> Result<Option<CellRequest>, Memory> {
        self.cells.take(bytes)
    }

    fn fresh(&self) {}

    fn eval(
        &mut self,
        state: &mut (),
        known: &Facts,
        request: &CellRequest,
    ) -> Result<Outcome, Memory> {
        if self.left == 0 {
            return Err(Memory);
        }
        self.left -= 1;
        self.cells.eval(state, known, request)
    }

    ghost lawful = { cells_lawful };

    ghost few_asks = { cells_ask_few };

    ghost changes = { λ facts request reply draft _. cell_changes (look facts) request reply draft };

    ghost replies = { cell_replies };
}

/// Worker 1 has begun when worker 0's request runs; it is given another one when that has ended.
const SCHEDULE: &[u8] =
    b"zope schedule 1\nrequest 1 3\nlog\nstep 1\nrequest 0 38\ncopy 0000000000000001 0000000000000001\nstep 0\nstep 0\nstep 0\nstep 0\nrequest 0 3\nlog\nend\n";

/// The report where the first evaluation wants memory.
const FIRST: &str =
    "zope report 1\nopen 0000000000000000 0\nbegin 1 0000000000000000\nbegin 0 0000000000000000\nmemory 0\nreply 0 none 151\nHTTP/1.1 503 Service Unavailable\r\nContent-Type: text/plain; charset=utf-8\r\nContent-Length: 14\r\nX-Transaction: none\r\nConnection: close\r\n\r\nout of memory\n\nidle 0\nidle 0\nlost 0\nlost 1\nhistory 0\nend\n";

/// The report where the second one does.
const SECOND: &str =
    "zope report 1\nopen 0000000000000000 0\nbegin 1 0000000000000000\nbegin 0 0000000000000000\nfetch 0 object 0000000000000001\nmemory 0\nreply 0 none 151\nHTTP/1.1 503 Service Unavailable\r\nContent-Type: text/plain; charset=utf-8\r\nContent-Length: 14\r\nX-Transaction: none\r\nConnection: close\r\n\r\nout of memory\n\nidle 0\nlost 0\nlost 1\nhistory 0\nend\n";

#[test]
fn want_of_memory_ends_its_request_alone(rt: HostRuntime) -> Result<(), Fail> {
    let alloc = rt.alloc();
    let items = read_schedule(alloc, SCHEDULE)?;
    for (left, wanted) in [(0, FIRST), (1, SECOND)] {
        let starving = Starving {
            cells: Cells::new(alloc),
            left,
        };
        let (refusal, text) = ran(alloc, &items, starving)?;
        assert_eq!(rt; refusal, None);
        assert_eq!(rt; text.as_str(), wanted);
    }
    Ok(())
}
