#![tactic(auto)]

use data_url::DataUrl;
use std::process::ExitCode;

fn main(rt: HostRuntime) -> ExitCode {
    let text = "data:text/plain;base64,SGVsbG8h#part";
    let Ok(url) = DataUrl::process(rt.alloc(), text) else {
        return ExitCode::FAILURE;
    };
    let Ok((body, _)) = url.decode_to_vec(rt.alloc()) else {
        return ExitCode::FAILURE;
    };
    match println!(rt; "{}: {} bytes", url.mime_type(), body.len()) {
        Ok(()) => ExitCode::SUCCESS,
        Err(_) => ExitCode::FAILURE,
    }
}
