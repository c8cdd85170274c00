// The files of a case.
use crate::difference::Unread;
use std::fs;
use std::io::ErrorKind;
use std::rt::Files;

/// The folder of a case.
#[derive(Drop)]
pub(crate) struct Folder<'a, R> {
    rt: &'a R,
    name: &'a str,
}

impl<'a, R: Files + AllocGlobal> Folder<'a, R> {
    /// The folder of this name.
    pub(crate) fn new(rt: &'a R, name: &'a str) -> Self {
        Folder { rt, name }
    }

    /// The bytes of a file, if it is there.
    pub(crate) fn find(&self, file: &'static str) -> Result<Option<Vec<u8>>, Unread> {
        let path = format!(in self.rt.alloc(); "{}/{file}", self.name)?;
        match fs::read(self.rt, path.as_str()) {
            Ok(bytes) => Ok(Some(bytes)),
            Err(why) if why.kind() == ErrorKind::NotFound => Ok(None),
            Err(_) => Err(Unread::File(file)),
        }
    }

    /// The bytes of a file, and none where it isn't there.
    pub(crate) fn bytes(&self, file: &'static str) -> Result<Vec<u8>, Unread> {
        match self.find(file)? {
            Some(bytes) => Ok(bytes),
            None => Ok(Vec::new(self.rt.alloc())),
        }
    }

    /// The text of a file that is to be there.
    pub(crate) fn text(&self, file: &'static str) -> Result<String, Unread> {
        match self.find(file)? {
            Some(bytes) => String::from_utf8(bytes).map_err(|_| Unread::File(file)),
            None => Err(Unread::File(file)),
        }
    }
}
