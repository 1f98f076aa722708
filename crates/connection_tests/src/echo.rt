//! A session that answers each text twice with itself. It is no session of a recorded run.
use debug_connection::Answering;
use std::alloc::{AllocError, Global};

#[derive(Drop)]
pub struct Echo {
    pub alloc: Global,
}

impl Answering for Echo {
    ghost shows = { λ _ _. ⊥ };

    fn answer(&mut self, text: &[u8]) -> Result<Vec<Vec<u8>>, AllocError> {
        let mut replies = Vec::new(self.alloc);
        replies.push(Vec::from_slice(self.alloc, text)?)?;
        replies.push(Vec::from_slice(self.alloc, text)?)?;
        Ok(replies)
    }
}
