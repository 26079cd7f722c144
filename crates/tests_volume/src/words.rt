// Lines of courses, word by word.
use sm_base::Ident;
use std::test::Fail;

// A line is not written as it has to be.
#[derive(Debug, Drop)]
pub struct BadLine;

// What is left of a line, its words with a space between them.
#[derive(Drop)]
pub struct Words<'a> {
    pub rest: &'a str,
}

impl<'a> Words<'a> {
    pub fn word(&mut self) -> Result<&'a str, BadLine> {
        match self.rest.split_once(' ') {
            Some((word, rest)) => {
                self.rest = rest;
                Ok(word)
            }
            None if self.rest.is_empty() => Err(BadLine),
            None => {
                let word = self.rest;
                self.rest = "";
                Ok(word)
            }
        }
    }

    pub fn number(&mut self) -> Result<u64, Fail> {
        Ok(self.word()?.parse::<u64>()?)
    }

    pub fn small(&mut self) -> Result<u32, Fail> {
        Ok(self.word()?.parse::<u32>()?)
    }

    pub fn byte(&mut self) -> Result<u8, Fail> {
        Ok(self.word()?.parse::<u8>()?)
    }

    // An identity as its two numbers.
    pub fn ident(&mut self) -> Result<Ident, Fail> {
        let origin = self.small()?;
        let seq = self.number()?;
        Ok(Ident { origin, seq })
    }
}
