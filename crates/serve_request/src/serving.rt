// How the request that a slot holds is served: a status read from the record, and every other request as an operation that is decided and performed.
ghost use Rattle.model.specs.Disk.{disk_of, HasSize};
ghost use Rattle.model.specs.Decide.{decide_request, decide};
ghost use Rattle.store.specs.Record.{decode};
ghost use Rattle.store.specs.Store.{slot_bytes};
ghost use Rattle.request.specs.RequestMeaning.{as_operation};
ghost use Rattle.serve_request.specs.Served.{Served, Entered};

use crate::performing::perform;
use layout::MAILBOX;
use request::{Operation, Request};
use status_read::serve_status;

// Serves the operation o, which slot p holds.
fn serve_operation(
    device: &mut [u8],
    area: &mut [u8],
    disk: &mut [u8],
    check_area: &mut [u8],
    p: usize,
    o: Operation,
)
    requires { Entered device.old area.old p × HasSize (decode device.old).device.visible (disk_of disk.old check_area.old) }
    ensures { Served p (decide_request (as_operation o) (record { port = p }) (slot_bytes p area.old) (decode device.old).device) (decode device.old).stages area.old (disk_of disk.old check_area.old) device.new area.new (disk_of disk.new check_area.new) }
{
    let d = record::decode(device);
    let pending = record::transfer_at(device, p);
    let k = decide::decide(o, area, p, d, pending);
    perform(device, area, disk, check_area, p, k);
}

// "answers the held request from the slot alone and leaves the reply in the slot". `disk` and `check_area` are only the visible part.
pub fn serve(device: &mut [u8], area: &mut [u8], disk: &mut [u8], check_area: &mut [u8], p: usize)
    requires { Entered device.old area.old p × HasSize (decode device.old).device.visible (disk_of disk.old check_area.old) }
    ensures { Served p (decide (record { port = p }) (slot_bytes p area.old) (decode device.old).device) (decode device.old).stages area.old (disk_of disk.old check_area.old) device.new area.new (disk_of disk.new check_area.new) }
{
    let q = request::request_of(area, MAILBOX * p);
    match q {
        Request::Status => serve_status(device, area, p),
        Request::Operation(o) => serve_operation(device, area, disk, check_area, p, o),
    }
}
