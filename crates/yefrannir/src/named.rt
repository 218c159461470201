// A list file under its name, and the way through its records.
use crate::failure::{Failure, refusal};
use command_list::fault::Fault;
use command_list::reader::Reader;
use command_list::record::Record;
use std::alloc::Global;

/// A list file's bytes, and the name that messages give it.
#[derive(Clone, Copy)]
pub(crate) struct Named<'a> {
    pub(crate) name: &'a str,
    pub(crate) list: &'a [u8],
}

impl Named<'_> {
    /// A refusal of the list.
    pub(crate) fn refusal(self, alloc: Global, fault: Fault) -> Failure {
        refusal(alloc, self.name, fault)
    }

    /// Hands each record with its place to `visit`, up to the first record that is refused.
    pub(crate) fn each_record<V: FnMut(usize, Record) -> Result<(), Failure>>(
        self,
        alloc: Global,
        mut visit: V,
    ) -> Result<(), Failure>
        requires { V.IsAlwaysCallable visit }
    {
        let mut reader = Reader::open(self.list).map_err(|fault| self.refusal(alloc, fault))?;
        let mut at = reader.place();
        while let Some(record) = reader.next().map_err(|fault| self.refusal(alloc, fault))? {
            visit(at, record)?;
            at = reader.place();
        }
        Ok(())
    }
}
