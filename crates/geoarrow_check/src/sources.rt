//! The files that words on the command line stand for.
use check_options::{is_left_out, is_taken, put_in_order};
use std::fs::DirEntry;
use std::io::ErrorKind;
use std::{fs, io, mem};

/// The files that are to be reported.
#[derive(Drop)]
pub(crate) struct Sources {
    /// Their names, and those of folders that are not listed.
    pub(crate) files: Vec<String>,
    /// Why names are not opened.
    unopened: Vec<Unopened>,
}

/// A folder that is not listed, or not all of it, or a name that is not UTF-8.
#[derive(Drop)]
struct Unopened {
    name: String,
    error: io::Error,
}

/// What is found in folders, and not yet looked at.
#[derive(Drop)]
struct Found {
    files: Vec<String>,
    folders: Vec<String>,
}

impl Sources {
    /// Returns the files that words stand for: a folder for its files that are taken, down all
    /// folders, in the order of their bytes; any other word for itself, one that is not UTF-8 for
    /// a file that is not opened. Errs only when out of memory.
    pub(crate) fn of(
        rt: &HostRuntime,
        words: &[String],
        not_text: &[String],
    ) -> io::Result<Sources> {
        let mut sources = Sources {
            files: Vec::new(rt.alloc()),
            unopened: Vec::new(rt.alloc()),
        };
        for word in words {
            if not_text.iter().any(|it| it.as_str() == word.as_str()) {
                let error = io::Error::from(ErrorKind::InvalidFilename);
                sources.add_unopened(rt, word.as_str(), error)?;
            } else if is_folder(rt, word.as_str()) {
                sources.add_below(rt, word.as_str())?;
            } else {
                sources
                    .files
                    .push(String::from_str(rt.alloc(), word.as_str())?)?;
            }
        }
        Ok(sources)
    }

    /// Adds a name that is not opened.
    fn add_unopened(&mut self, rt: &HostRuntime, name: &str, error: io::Error) -> io::Result<()> {
        self.files.push(String::from_str(rt.alloc(), name)?)?;
        let name = String::from_str(rt.alloc(), name)?;
        self.unopened.push(Unopened { name, error })?;
        Ok(())
    }

    /// Adds the files of a folder, and the folders in it that are not listed.
    fn add_below(&mut self, rt: &HostRuntime, folder: &str) -> io::Result<()> {
        let mut found = Found {
            files: Vec::new(rt.alloc()),
            folders: Vec::new(rt.alloc()),
        };
        found.folders.push(String::from_str(rt.alloc(), folder)?)?;
        for _ in 0..u64::MAX {
            let Some(folder) = found.folders.pop() else {
                break;
            };
            if let Err(error) = found.list(rt, folder.as_str()) {
                found
                    .files
                    .push(String::from_str(rt.alloc(), folder.as_str())?)?;
                self.unopened.push(Unopened {
                    name: folder,
                    error,
                })?;
            }
        }
        put_in_order(&mut found.files)?;
        self.files.append(&mut found.files)?;
        Ok(())
    }

    /// Takes the names of the files.
    pub(crate) fn take_files(&mut self, rt: &HostRuntime) -> Vec<String> {
        mem::replace(&mut self.files, Vec::new(rt.alloc()))
    }

    /// Takes why a name is not opened, if it is not.
    pub(crate) fn take_error(&mut self, name: &str) -> Option<io::Error> {
        let place = self
            .unopened
            .iter()
            .position(|it| it.name.as_str() == name)?;
        Some(self.unopened.remove(place).error)
    }
}

impl Found {
    /// Adds what stands in a folder. Errs where the system does not give all of it.
    fn list(&mut self, rt: &HostRuntime, folder: &str) -> io::Result<()> {
        let mut listed = Ok(());
        for entry in fs::read_dir(rt, folder)? {
            if let Err(error) = self.add(rt, entry) {
                listed = Err(error);
            }
        }
        listed
    }

    /// Adds an entry of a folder, if it is a file or a folder that is taken.
    fn add(
        &mut self,
        rt: &HostRuntime,
        entry: io::Result<DirEntry<HostRuntime>>,
    ) -> io::Result<()> {
        let entry = entry?;
        let name = entry.file_name();
        if is_left_out(name) {
            return Ok(());
        }
        let path = String::from_str(rt.alloc(), entry.path().to_string_lossy())?;
        let kind = entry.file_type()?;
        if kind.is_dir() {
            self.folders.push(path)?;
        } else if is_taken(name) {
            self.files.push(path)?;
        }
        Ok(())
    }
}

/// Whether a word names a folder.
fn is_folder(rt: &HostRuntime, word: &str) -> bool {
    match fs::metadata(rt, word) {
        Ok(metadata) => word != "-" && metadata.is_dir(),
        Err(_) => false,
    }
}
