// Examples of what the readers answer, as tests.
#![tactic(auto)]

#[cfg(test)]
mod tests {
    use codes::CodeError;
    use controls::{SubFormatterConst, step_at};
    use decode::check_code;
    use encode::encode;
    use formatter::{halve, parse_fallback, parse_formatter};
    use grammar::ChildIndex;
    use matchers::parse_matcher;
    use refusal::{ClosingMark, FormatterError, ParseError};
    use std::test::Fail;
    use templates::{output_at, parse_template};
    use written::write_back;

    // The text K$$17 is shown as K$17.
    #[test]
    fn halves_marks(rt: HostRuntime) -> Result<(), Fail> {
        let read = parse_formatter(b"K$$17")?;
        assert_eq!(rt; read.parts.outputs, 1);
        let mut out = [0; 8];
        assert_eq!(rt; halve(read.parts.text, b'$', &mut out), Some(4));
        assert!(rt; out[1] == b'$' && out[2] == b'1');
        Ok(())
    }

    // In a|||b|c the left separator is a|.
    #[test]
    fn parts_separators(rt: HostRuntime) -> Result<(), Fail> {
        let read = parse_template(b"x$(#0..1$a|||b|c)$y")?;
        match output_at(read.text, 1) {
            Some(
                (
                    SubFormatterConst::Repeat {
                        left_sep,
                        middle_sep,
                        right_sep,
                        ..
                    },
                    17,
                ),
            ) => {
                assert!(rt;
                    left_sep == b"a||".as_slice()
                        && middle_sep == b"b".as_slice()
                        && right_sep == b"c".as_slice()
                );
                Ok(())
            },
            _ => Err(Fail::new("no repeat at place 1")),
        }
    }

    #[test]
    fn missing_dollar(rt: HostRuntime) -> Result<(), Fail> {
        match parse_template(b"$") {
            Err(fault) => {
                assert_eq!(rt;
                    fault,
                    ParseError {
                        place: 1,
                        length: 0,
                        kind: FormatterError::MissingControl(ClosingMark::Dollar),
                    }
                );
                Ok(())
            },
            Ok(_) => Err(Fail::new("a lone dollar was accepted")),
        }
    }

    #[test]
    fn steps_of_a_path(rt: HostRuntime) {
        assert_eq!(rt; step_at(b"#0:-1:7", 1), Some((ChildIndex(0), 3)));
        assert_eq!(rt; step_at(b"#0:-1:7", 3), Some((ChildIndex(-1), 6)));
        assert_eq!(rt; step_at(b"#0:-1:7", 6), None);
    }

    #[test]
    fn counts_children(rt: HostRuntime) -> Result<(), Fail> {
        let read = parse_matcher(b"(plus _ _)")?;
        assert_eq!(rt; read.children, Some(2));
        assert!(rt; read.data == b"plus".as_slice());
        Ok(())
    }

    #[test]
    fn first_fallback(rt: HostRuntime) -> Result<(), Fail> {
        let read = parse_fallback(b"$-1$${0}$$(#0..-1$(|, |))$$-1$")?;
        assert_eq!(rt; read.max_capture, Some(0));
        assert_eq!(rt; read.parts.bind_power.left, 4294967295);
        Ok(())
    }

    // The code of a$$$[#0]$b has 29 bytes; the buffer's last byte stays.
    #[test]
    fn worked_code(rt: HostRuntime) -> Result<(), Fail> {
        let mut code = [7; 30];
        assert_eq!(rt; encode(b"a$$$[#0]$b", &mut code)?, 29);
        assert!(rt; code[10] == 97 && code[12] == 36 && code[28] == 0 && code[29] == 7);
        assert!(rt; check_code(&code[0..29]).is_ok() && check_code(&code[0..28]).is_err());
        Ok(())
    }

    // The code of the text `$` is written back with prefix and suffix.
    #[test]
    fn written_back(rt: HostRuntime) {
        let mut out = [7; 9];
        assert_eq!(rt;
            write_back(&[1, 0, 0, 0, 0, 0, 0, 0, 0, 2, 36, 0], &mut out),
            Ok(8)
        );
        assert!(rt; out == *b"$0$$$$0$\x07");
    }

    #[test]
    fn short_buffer_stays(rt: HostRuntime) {
        let mut out = [7; 7];
        assert_eq!(rt;
            write_back(&[1, 0, 0, 0, 0, 0, 0, 0, 0, 2, 36, 0], &mut out),
            Err(CodeError::BufferTooShort)
        );
        assert!(rt; out == [7; 7]);
    }
}
