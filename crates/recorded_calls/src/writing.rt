// The writers of sheets and frames.
use crate::entries::checksum;
use crate::input::BrokenRecord;
use crate::run::{Answer, Run, print_line};
use crate::slices::CodeBuffers;
use std::io::BufRead;

impl<R: Print, F: BufRead> Run<'_, R, F> {
    // `writer::write_sheet`.
    pub(crate) fn write_sheet(&mut self) -> Result<(), BrokenRecord> {
        let mut code = CodeBuffers::new();
        let code = self.input.code(&mut code)?;
        let out = self.input.slice(&mut self.kept.text)?;
        self.input.end_record()?;
        let answer = writer::write_sheet(&code, out);
        print_line(self.rt, Answer::from(answer), &[checksum(out)]);
        Ok(())
    }

    // `writer::write_frame_line`.
    pub(crate) fn write_line(&mut self) -> Result<(), BrokenRecord> {
        let llrs = self.input.slice(&mut self.kept.frame)?;
        let line = self.input.slice(&mut self.kept.text)?;
        self.input.end_record()?;
        let answer = writer::write_frame_line(llrs, line);
        print_line(self.rt, Answer::from(answer), &[checksum(line)]);
        Ok(())
    }
}
