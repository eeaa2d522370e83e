// What the arguments ask for.
use crate::selection::Selection;
use std::{env, io};

#[derive(Clone, Copy, PartialEq, Eq, Debug)]
pub struct Request {
    pub selection: Selection,
    // Whether the shop keeps places as floats.
    pub floats: bool,
}

impl Request {
    const PLAIN: Request = Request {
        selection: Selection::Half,
        floats: false,
    };

    // A count and the word `floats`, in either order, each once at most; none if the arguments say something else.
    pub fn read(rt: &HostRuntime) -> io::Result<Option<Request>> {
        let mut request = Request::PLAIN;
        for word in env::args(rt)?.skip(1) {
            request = match word.parse().map(Selection::First) {
                Ok(selection) if request.selection == Selection::Half => Request {
                    selection,
                    ..request
                },
                Err(_) if word.as_str() == "floats" && !request.floats => Request {
                    floats: true,
                    ..request
                },
                _ => return Ok(None),
            };
        }
        Ok(Some(request))
    }
}
