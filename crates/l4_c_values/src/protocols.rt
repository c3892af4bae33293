//! Page faults and requests for frames, as C gets them.
ghost use Rattle.std.specs.Prelude.{◌≡◌};
ghost use Rattle.l4_c_values.specs.Protocols.{TellsFaultOf, TellsRequestOf, no_fault_result, no_request_result};

use l4_ipc::Message;
use l4_msg::{FrameRequest, PageFault};

/// A page fault; `there` is 0 if the message is not a page fault.
#[repr(C)]
#[derive(Clone, Copy)]
pub struct FaultResult {
    pub refusal: u32,
    pub detail: u32,
    pub there: u32,
    pub address: u32,
    pub ip: u32,
    pub access: u32,
}

/// A request for frames; `there` is 0 if the message is not a request.
#[repr(C)]
#[derive(Clone, Copy)]
pub struct RequestResult {
    pub refusal: u32,
    pub detail: u32,
    pub there: u32,
    pub fpage: u32,
    pub attributes: u32,
}

/// Returns a result with this refusal and no fault.
pub fn no_fault(refusal: u32, detail: u32) -> FaultResult
    ensures { result ≡ no_fault_result refusal detail }
{
    FaultResult {
        refusal,
        detail,
        there: 0,
        address: 0,
        ip: 0,
        access: 0,
    }
}

/// Returns the page fault that the message is, if it is one.
pub fn fault_told(message: &Message) -> FaultResult
    ensures { TellsFaultOf message.now result }
{
    match PageFault::read(message) {
        Some(fault) => FaultResult {
            refusal: 0,
            detail: 0,
            there: 1,
            address: fault.address,
            ip: fault.ip,
            access: u32::from(fault.access.bits()),
        },
        None => no_fault(0, 0),
    }
}

/// Returns a result with this refusal and no request.
pub fn no_request(refusal: u32, detail: u32) -> RequestResult
    ensures { result ≡ no_request_result refusal detail }
{
    RequestResult {
        refusal,
        detail,
        there: 0,
        fpage: 0,
        attributes: 0,
    }
}

/// Returns the request for frames that the message is, if it is one.
pub fn request_told(message: &Message) -> RequestResult
    ensures { TellsRequestOf message.now result }
{
    match FrameRequest::read(message) {
        Some(request) => RequestResult {
            refusal: 0,
            detail: 0,
            there: 1,
            fpage: request.fpage.word(),
            attributes: request.attributes,
        },
        None => no_request(0, 0),
    }
}
