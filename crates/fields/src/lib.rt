// Laws of whole-word arithmetic over syllables; definitions and laws, no code.
